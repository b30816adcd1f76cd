//! What holds of flat code, for what stands on it.
ghost use Rattle.flat_code_laws.specs.Laws.{TellsAppend, OutputAppends, TrailAppends, LiveAppends, EverAppends, SafeAppends, AllByLater};
ghost use Rattle.flat_code_laws.specs.Laws.{AllByAppends, FrontsCompare, OutputBegins, TrailBegins, TellsBegin, StepsAdvance, ProgramsAdvance};
ghost use Rattle.flat_code_laws.specs.Laws.{AllCame, StraightTakes, MoreTurnsExtend, TrapsAreOfAccesses, MoveSequenceMoves, LoadSequenceLoads};
ghost use Rattle.flat_code_laws.specs.Laws.{LoadSequenceStops, SpanSequenceSpans, SequencesAreFound, FoundAreSequences};
ghost use Rattle.flat_code_laws.specs.Examples.{ExamplesRun, ExamplesWeigh};

/// What was told in two lists, without its times.
pub fn tells_append()
    ensures { TellsAppend }
{}

/// The output of two lists is that of the one and then of the other.
pub fn output_appends()
    ensures { OutputAppends }
{}

/// The trail of two lists is that of the one and then of the other.
pub fn trail_appends()
    ensures { TrailAppends }
{}

/// The blocks that live after two lists.
pub fn live_appends()
    ensures { LiveAppends }
{}

/// The blocks that lived at some time of two lists.
pub fn ever_appends()
    ensures { EverAppends }
{}

/// Two lists are safe one after the other exactly if each is, by the blocks of its time.
pub fn safe_appends()
    ensures { SafeAppends }
{}

/// What came by a time came by every later one.
pub fn all_by_later()
    ensures { AllByLater }
{}

/// Two lists came by a time exactly if each did.
pub fn all_by_appends()
    ensures { AllByAppends }
{}

/// Of two fronts of one list one begins with the other.
pub fn fronts_compare()
    ensures { FrontsCompare }
{}

/// The output of a list begins with that of its front.
pub fn output_begins()
    ensures { OutputBegins }
{}

/// The trail of a list begins with that of its front.
pub fn trail_begins()
    ensures { TrailBegins }
{}

/// What a list tells begins with what its front tells.
pub fn tells_begin()
    ensures { TellsBegin }
{}

/// Steps only add to what was told, from any point, and take time.
pub fn steps_advance()
    ensures { StepsAdvance }
{}

/// The calls of a program only add to what was told, from any point, and take time.
pub fn programs_advance()
    ensures { ProgramsAdvance }
{}

/// All that a run has told came by its time.
pub fn all_came()
    ensures { AllCame }
{}

/// Code without loops and calls takes no longer than all its charges together.
pub fn straight_takes()
    ensures { StraightTakes }
{}

/// With more turns and calls a run that has ended is the same, and one that is cut goes on.
pub fn more_turns_extend()
    ensures { MoreTurnsExtend }
{}

/// Flat code traps only at an access: in the null page, by a marked word, or at no multiple of its size.
pub fn traps_are_of_accesses()
    ensures { TrapsAreOfAccesses }
{}

/// A move sequence does what the move of words answers.
pub fn move_sequence_moves()
    ensures { MoveSequenceMoves }
{
    marked_ptr::laws::moves_by_tests();
}

/// A load sequence loads the null pointer and words that belong to a block, and reports all others.
pub fn load_sequence_loads()
    ensures { LoadSequenceLoads }
{}

/// A span sequence touches the first byte of a range, moves to the last, and touches it.
pub fn span_sequence_spans()
    ensures { SpanSequenceSpans }
{
    marked_ptr::laws::moves_by_tests();
}

/// A load sequence whose access ends the run ends it so.
pub fn load_sequence_stops()
    ensures { LoadSequenceStops }
{}

/// A sequence whose values are apart is found where it stands.
pub fn sequences_are_found()
    ensures { SequencesAreFound }
{}

/// What is found begins the steps, and its values are apart.
pub fn found_are_sequences()
    ensures { FoundAreSequences }
{}

/// What some small programs do.
pub fn examples_run()
    ensures { ExamplesRun }
{}

/// What some sequences of steps weigh.
pub fn examples_weigh()
    ensures { ExamplesWeigh }
{}
