//! Laws of mid code.
ghost use Rattle.mid_code.specs.Examples.{Examples};
ghost use Rattle.mid_code.specs.Laws.{WatchedStraysOrRuns};

/// Watching moves changes nothing but that a run may end where a move leaves its object.
pub fn watched_strays_or_runs()
    ensures { WatchedStraysOrRuns }
{}

/// What small programs come to: loops, calls, bounds of moves and of accesses, freed memory, copies, watched moves.
pub fn examples()
    ensures { Examples }
{}
