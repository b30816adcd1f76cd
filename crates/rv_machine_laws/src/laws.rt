//! The laws of the machine, for what stands on it.
ghost use Rattle.rv_machine_laws.specs.Laws.{EndingStays, StepTells, ToldGrows, FieldsFit, InstructionDone, WordReadBack, OthersStay, WordsStand, StepsAdd};
ghost use Rattle.rv_machine_laws.specs.Laws.{CoreStays, FormStays, RunsAreFormed, LiveAreLaidOut, OnlyToldChange, MadeIsZero, TextStays, TextStands};
ghost use Rattle.rv_machine_laws.specs.Laws.{TableFollows, RunsHaveTable, TableIsKept, SafeAtEnd, ContainedAtEnd, SafeAccessesAreHigh, ByteReadBack};
ghost use Rattle.rv_machine_laws.specs.Laws.{HalfReadBack, WordAtIndex, CallsKeep, PcIsAligned, MemoryStarts, StepRunTells, RunBegins, RunGoesOn};

/// A machine that has ended stays as it is.
pub fn ending_stays()
    ensures { EndingStays }
{}

/// What an instruction tells is given by the state before it, and comes after all that was told.
pub fn step_tells()
    ensures { StepTells }
{}

/// What was told stays told.
pub fn told_grows()
    ensures { ToldGrows }
{}

/// The fields of an instruction that is fetched fit.
pub fn fields_fit()
    ensures { FieldsFit }
{
    rv_code::laws::reads_only();
}

/// The instruction whose word stands at the program counter is done.
pub fn instruction_done()
    ensures { InstructionDone }
{
    rv_code::laws::reads_back();
}

/// A word that was written is read back.
pub fn word_read_back()
    ensures { WordReadBack }
{}

/// So is a byte.
pub fn byte_read_back()
    ensures { ByteReadBack }
{}

/// And so is a half.
pub fn half_read_back()
    ensures { HalfReadBack }
{}

/// Of words that stand in memory, each stands at its index.
pub fn word_at_index()
    ensures { WordAtIndex }
{}

/// An environment call that does not end the run goes on to the next instruction, and changes no register but x10.
pub fn calls_keep()
    ensures { CallsKeep }
{}

/// The program counter is a multiple of 4.
pub fn pc_is_aligned()
    ensures { PcIsAligned }
{}

/// What stands in memory at the start: the text, the size table of the global blocks and their initial bytes, and zeros.
pub fn memory_starts()
    ensures { MemoryStarts }
{
    rv_code::laws::reads_only();
    size_table::laws::block_is_marked();
    size_table::laws::marking_adds();
    size_table::laws::marking_removes();
    buddy_heap::laws::place_is_least();
    size_table::laws::exponent_is_least();
}

/// An instruction keeps 32 registers with words in them, register 0 at 0, and the memory's size and bytes.
pub fn core_stays()
    ensures { CoreStays }
{
    rv_code::laws::reads_only();
}

/// Bytes beside those that were written stay.
pub fn others_stay()
    ensures { OthersStay }
{}

/// Words that were written stand in memory.
pub fn words_stand()
    ensures { WordsStand }
{}

/// Instructions that are done in pieces are done at once.
pub fn steps_add()
    ensures { StepsAdd }
{}

/// An instruction, an environment call among them, keeps what holds of every machine of an image: its core's form, the
/// calls entered one under the other, and that the blocks that live are those of the globals and of these calls.
pub fn form_stays()
    ensures { FormStays }
{
    rv_code::laws::reads_only();
    buddy_heap::laws::place_is_least();
    size_table::laws::exponent_is_least();
}

/// So this holds after each instruction of every run of an image.
pub fn runs_are_formed()
    ensures { RunsAreFormed }
{
    rv_code::laws::reads_only();
    buddy_heap::laws::place_is_least();
    size_table::laws::exponent_is_least();
}

/// The live blocks are aligned to their size and lie in their regions, and no two of them meet.
pub fn live_are_laid_out()
    ensures { LiveAreLaidOut }
{}

/// A byte of the memory stays unless an event tells that it was written. An environment call tells of blocks alone, so it
/// writes to blocks that it makes and to the size table.
pub fn only_told_change()
    ensures { OnlyToldChange }
{
    buddy_heap::laws::place_is_least();
    size_table::laws::exponent_is_least();
}

/// The bytes of a block that was made are zero.
pub fn made_is_zero()
    ensures { MadeIsZero }
{
    buddy_heap::laws::place_is_least();
    size_table::laws::exponent_is_least();
}

/// The text's region stays as it was at the start.
pub fn text_stays()
    ensures { TextStays }
{
    rv_code::laws::reads_only();
    buddy_heap::laws::place_is_least();
    size_table::laws::exponent_is_least();
}

/// The words of an image's text stand in memory from 0x1000 on, in every run.
pub fn text_stands()
    ensures { TextStands }
{
    rv_code::laws::reads_only();
    buddy_heap::laws::place_is_least();
    size_table::laws::exponent_is_least();
}

/// The size table is that of the live blocks, before and after an instruction that does not itself write to it.
pub fn table_follows()
    ensures { TableFollows }
{
    rv_code::laws::reads_only();
    size_table::laws::block_is_marked();
    size_table::laws::marking_adds();
    size_table::laws::marking_removes();
    buddy_heap::laws::place_is_least();
    size_table::laws::exponent_is_least();
}

/// So it is in every run of a program that never writes to it.
pub fn runs_have_table()
    ensures { RunsHaveTable }
{
    rv_code::laws::reads_only();
    size_table::laws::block_is_marked();
    size_table::laws::marking_adds();
    size_table::laws::marking_removes();
    buddy_heap::laws::place_is_least();
    size_table::laws::exponent_is_least();
}

/// A run whose accesses are safe, and that keeps control, has the size table of the live blocks.
pub fn table_is_kept()
    ensures { TableIsKept }
{
    rv_code::laws::reads_only();
    size_table::laws::block_is_marked();
    size_table::laws::marking_adds();
    size_table::laws::marking_removes();
    buddy_heap::laws::place_is_least();
    size_table::laws::exponent_is_least();
}

/// Safe accesses by other registers than x2 and x31 are to the globals or above.
pub fn safe_accesses_are_high()
    ensures { SafeAccessesAreHigh }
{
    buddy_heap::laws::place_is_least();
    size_table::laws::exponent_is_least();
}

/// A run that keeps within its blocks and its code at its end does so throughout.
pub fn contained_at_end()
    ensures { ContainedAtEnd }
{
    rv_code::laws::reads_only();
    size_table::laws::block_is_marked();
    size_table::laws::marking_adds();
    size_table::laws::marking_removes();
    buddy_heap::laws::place_is_least();
    size_table::laws::exponent_is_least();
}

/// A run that is safe at its end is safe.
pub fn safe_at_end()
    ensures { SafeAtEnd }
{
    rv_code::laws::reads_only();
    size_table::laws::block_is_marked();
    size_table::laws::marking_adds();
    size_table::laws::marking_removes();
    buddy_heap::laws::place_is_least();
    size_table::laws::exponent_is_least();
}

/// A run of one instruction tells what the state before it gives, so a runner outside can read it before (`Machine::events`).
pub fn step_run_tells()
    ensures { StepRunTells }
{}

/// A run of no instruction tells nothing.
pub fn run_begins()
    ensures { RunBegins }
{}

/// A run goes on by an instruction, and tells what both told.
pub fn run_goes_on()
    ensures { RunGoesOn }
{}
