//! Flat code that is made keeps the discipline, and weighs no more than its program.
ghost use Rattle.bounds_instr_accepted.specs.Laws.{InstrumentedIsDisciplined, InstrumentedIsLight};

/// The flat code of a program keeps the discipline.
pub fn instrumented_is_disciplined()
    ensures { InstrumentedIsDisciplined }
{
    flat_discipline::laws::plain_items_are_read();
    flat_discipline::laws::derivations_are_accepted();
}

/// The flat code of a program weighs no more than the program, the start code and the library.
pub fn instrumented_is_light()
    ensures { InstrumentedIsLight }
{
    flat_discipline::laws::plain_items_are_read();
}
