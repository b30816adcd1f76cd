//! What flat code does is what its mid code does.
ghost use Rattle.bounds_instr_keeps.specs.Laws.{InstrumentedKeeps};

/// The flat code of a program does what the program does, within its time.
pub fn instrumented_keeps()
    ensures { InstrumentedKeeps }
{
    flat_code_laws::laws::steps_advance();
    flat_code_laws::laws::programs_advance();
    flat_code_laws::laws::load_sequence_loads();
    flat_code_laws::laws::load_sequence_stops();
    flat_code_laws::laws::move_sequence_moves();
    injection::laws::accounts_compose();
    injection::laws::accounts_keep();
    injection::laws::accounts_grow();
    injection::laws::says_keep();
    injection::laws::trails_append();
    injection::laws::comparisons_are_of_words();
    injection::laws::truth_is_of_words();
    injection::laws::stores_are_writes();
    injection::laws::loads_are_reads();
    injection::laws::pointers_are_owned();
    injection::laws::moves_are_moved();
    injection::laws::ended_keeps();
    injection::laws::allocations_are_of_blocks();
    injection::laws::frees_are_of_blocks();
    injection::laws::places_keep();
    injection::laws::entries_keep();
    injection::laws::exits_keep();
    injection::laws::frames_are_alike();
}
