//! The laws of landings.
ghost use Rattle.flat_landing.specs.Laws.{SharedAppends, KeptMore, LandingsRun};

/// What is shared of two lists is that of the first and then that of the second.
pub fn shared_appends()
    ensures { SharedAppends }
{}

/// A machine that has told all in time still has after one thing more.
pub fn kept_more()
    ensures { KeptMore }
{
    rv_machine_laws::laws::told_grows();
}

/// A machine that lands for every bound runs as flat code does.
pub fn landings_run()
    ensures { LandingsRun }
{
    rv_machine_laws::laws::told_grows();
    rv_machine_laws::laws::ending_stays();
    bb_watch::laws::events_append();
    bb_watch::laws::each_appends();
    bb_watch::laws::open_appends();
}
