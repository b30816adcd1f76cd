//! The laws of what a run tells, for what stands on it.
ghost use Rattle.std.specs.Prelude.{ℕ};
ghost use Rattle.bb_watch.specs.Laws.{OutputAppends, EventsAppend, EventsHappen, LiveAppends, EverAppends, EachAppends, OpenAppends};
ghost use Rattle.bb_watch.specs.Safety.{IsMoveSafe, IsAccessSafe, IsControlSafe};

/// The output of two lists is that of the first and then that of the second.
pub fn output_appends()
    ensures { OutputAppends }
{}

/// So are the events.
pub fn events_append()
    ensures { EventsAppend }
{}

/// Where events alone are told, they are those.
pub fn events_happen()
    ensures { EventsHappen }
{}

/// The blocks that are live after two lists of events are those after the second, begun after the first.
pub fn live_appends()
    ensures { LiveAppends }
{}

/// So are the blocks that ever were live.
pub fn ever_appends()
    ensures { EverAppends }
{}

/// Two lists of events are safe exactly if the first is, and the second is by the blocks after the first.
pub fn each_appends()
    ensures moves { (g : ℕ) → EachAppends (IsMoveSafe g) }
    ensures accesses { (g : ℕ) → EachAppends (IsAccessSafe g) }
    ensures control { EachAppends IsControlSafe }
{}

/// The calls that are open after two lists of events are those after the second, begun after the first.
pub fn open_appends()
    ensures { OpenAppends }
{}
