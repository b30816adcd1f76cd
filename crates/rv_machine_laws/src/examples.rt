//! Runs that are safe, and runs that are not: what the definition of safety takes and what it refuses.
ghost use Rattle.rv_machine_laws.specs.Examples.{ExampleIsSafe, ExampleExits, BlockIsUsedSafely, BlockIsUsed};
ghost use Rattle.rv_machine_laws.specs.Examples.{FrameIsUsedSafely, FrameIsUsed, ClausesRefuse, UnsafeExamples};

/// A run can be safe: that of an image that only exits is, however long.
pub fn example_is_safe()
    ensures { ExampleIsSafe }
{
    rv_code::laws::reads_back();
    rv_code::laws::reads_only();
    size_table::laws::block_is_marked();
    size_table::laws::marking_adds();
    size_table::laws::marking_removes();
    buddy_heap::laws::place_is_least();
    size_table::laws::exponent_is_least();
}

/// That image exits with status 42 after three instructions.
pub fn example_exits()
    ensures { ExampleExits }
{
    rv_code::laws::reads_back();
}

/// A run with moves, accesses, a call and a return can be safe too.
pub fn block_is_used_safely()
    ensures { BlockIsUsedSafely }
{
    rv_code::laws::reads_back();
    rv_code::laws::reads_only();
    size_table::laws::block_is_marked();
    size_table::laws::marking_adds();
    size_table::laws::marking_removes();
    buddy_heap::laws::place_is_least();
    size_table::laws::exponent_is_least();
}

/// That run tells all these things.
pub fn block_is_used()
    ensures { BlockIsUsed }
{
    rv_code::laws::reads_back();
}

/// A run with a block that is made and ended can be safe too, also where it then reads from where the block was.
pub fn frame_is_used_safely()
    ensures { FrameIsUsedSafely }
{
    rv_code::laws::reads_back();
    rv_code::laws::reads_only();
    size_table::laws::block_is_marked();
    size_table::laws::marking_adds();
    size_table::laws::marking_removes();
    buddy_heap::laws::place_is_least();
    size_table::laws::exponent_is_least();
    crate::laws::text_stands();
}

/// That run tells these things.
pub fn frame_is_used()
    ensures { FrameIsUsed }
{
    rv_code::laws::reads_back();
    crate::laws::text_stands();
}

/// Each clause of safety refuses a run that no other clause refuses, but for the one on the size table, which follows from
/// those on accesses and control.
pub fn clauses_refuse()
    ensures { ClausesRefuse }
{
    rv_code::laws::reads_back();
    size_table::laws::block_is_marked();
    size_table::laws::marking_adds();
    size_table::laws::marking_removes();
    buddy_heap::laws::place_is_least();
    size_table::laws::exponent_is_least();
    rv_code::laws::reads_only();
}

/// So each of these runs is not safe.
pub fn unsafe_examples()
    ensures { UnsafeExamples }
{
    clauses_refuse();
}
