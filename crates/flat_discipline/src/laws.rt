//! What holds of the discipline, for what stands on it.
ghost use Rattle.flat_discipline.specs.Laws.{ItemsAreSteps, SequencesAreItems, PlainItemsAreRead, ClosedTablesKnow, DerivationsAreAccepted};
ghost use Rattle.flat_discipline.specs.Laws.{FirstIsOne, ExactTablesTell};
ghost use Rattle.flat_discipline.specs.Examples.{ExamplesBreak};
ghost use Rattle.flat_discipline.specs.Safe.{DisciplinedIsSafe};

/// The items of steps are these steps.
pub fn items_are_steps()
    ensures { ItemsAreSteps }
{}

/// A sequence whose values are apart is an item where it stands.
pub fn sequences_are_items()
    ensures { SequencesAreItems }
{
    flat_code_laws::laws::sequences_are_found();
}

/// Items whose plain steps begin no sequence are read back from their steps.
pub fn plain_items_are_read()
    ensures { PlainItemsAreRead }
{
    flat_code_laws::laws::sequences_are_found();
}

/// A closed table knows no fact that a chain shows to be lost.
pub fn closed_tables_know()
    ensures { ClosedTablesKnow }
{}

/// A program with derivations keeps the discipline.
pub fn derivations_are_accepted()
    ensures { DerivationsAreAccepted }
{}

/// There is at most one first place that breaks the discipline.
pub fn first_is_one()
    ensures { FirstIsOne }
{}

/// By an exact table the first place that breaks the discipline is the first by chains.
pub fn exact_tables_tell()
    ensures { ExactTablesTell }
{}

/// Disciplined code is safe in every run, with freed and forged pointers too: its moves and accesses are, and it does
/// nothing that has no meaning.
pub fn disciplined_is_safe()
    ensures { DisciplinedIsSafe }
{
    flat_code_laws::laws::tells_append();
    flat_code_laws::laws::live_appends();
    flat_code_laws::laws::ever_appends();
    flat_code_laws::laws::safe_appends();
    flat_code_laws::laws::move_sequence_moves();
    flat_code_laws::laws::load_sequence_loads();
    flat_code_laws::laws::load_sequence_stops();
    marked_ptr::laws::moves_are_offsets();
    marked_ptr::laws::moves_stay_in_reach();
    marked_ptr::laws::owner_is_block();
    size_table::laws::exponent_is_least();
    buddy_heap::laws::place_is_least();
}

/// Small programs break the discipline, each by one rule at a known place.
pub fn examples_break()
    ensures { ExamplesBreak }
{}
