//! Laws of the meaning of programs.
ghost use Rattle.source_meaning.specs.Laws.{OperationsGrow, ExpressionsGrow, StatementsGrow, ProgramsGrow, RunsGrow, MoreTurnsKeep};

/// No operation that a program or its code does on the world takes back what was told, gives back what was read, or does
/// away with an object.
pub fn operations_grow()
    ensures { OperationsGrow }
{}

/// A run only adds to its output and to what it leaves behind, and only takes from its input. No object goes, changes its
/// kind, its length, its base or its exponent, or lives again. So it is for each expression and statement, for each call of
/// a program, and for whole runs.
pub fn runs_grow()
    ensures expressions { ExpressionsGrow }
    ensures statements { StatementsGrow }
    ensures calls { ProgramsGrow }
    ensures runs { RunsGrow }
{}

/// With more turns of loops and more nested calls a run is the same, unless it was cut: then it goes on from there.
pub fn more_turns_keep()
    ensures { MoreTurnsKeep }
{}
