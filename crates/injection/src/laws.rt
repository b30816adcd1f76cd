//! What each operation on objects is on words and memory, for what stands on it.
ghost use Rattle.injection.specs.Laws.{AccountsCompose, AccountsKeep, TrailsAppend, SaysKeep, AccountsGrow, PointersAreOwned};
ghost use Rattle.injection.specs.Laws.{OwnersHaveExponents, MovesAreMoved, AccessesAreFound, FoundLieInBlocks, SpansLieInObjects};
ghost use Rattle.injection.specs.Laws.{LoadsAreReads, StoresAreWrites, InitializersAreWrites, ClearsAreZeros, CopiesAreBytes};
ghost use Rattle.injection.specs.Laws.{SetsAreBytes, ComparisonsAreOfWords, TruthIsOfWords, MadeKeeps, EndedKeeps, PlacesKeep};
ghost use Rattle.injection.specs.Laws.{PlacesAreFree, AllocationsAreOfBlocks, FreesAreOfBlocks, EntriesKeep, ExitsKeep, FramesAreAlike};

/// What objects keep over two parts of a run they keep over both.
pub fn accounts_compose()
    ensures { AccountsCompose }
{}

/// While objects keep their accounts, pointers keep their words, and so do values, cells and trails.
pub fn accounts_keep()
    ensures { AccountsKeep }
{}

/// The image of two trails is that of the one and then of the other.
pub fn trails_append()
    ensures { TrailsAppend }
{}

/// What was told goes on to say what a run leaves behind.
pub fn says_keep()
    ensures { SaysKeep }
{
    flat_code_laws::laws::tells_append();
    flat_code_laws::laws::output_appends();
    flat_code_laws::laws::trail_appends();
}

/// Objects that are made or end leave the accounts of all others, and their own.
pub fn accounts_grow()
    ensures { AccountsGrow }
{}

/// Each pointer's word has an owner.
pub fn pointers_are_owned()
    ensures { PointersAreOwned }
{
    marked_ptr::laws::owner_is_block();
}

/// The size table has an object's exponent at the owners of its pointers.
pub fn owners_have_exponents()
    ensures { OwnersHaveExponents }
{
    marked_ptr::laws::owner_is_block();
}

/// A pointer's move is that of its word.
pub fn moves_are_moved()
    ensures { MovesAreMoved }
{
    marked_ptr::laws::owner_is_block();
    marked_ptr::laws::moves_are_offsets();
}

/// An access by a pointer is one by its word.
pub fn accesses_are_found()
    ensures { AccessesAreFound }
{}

/// The bytes of an access that finds a place lie in a live block.
pub fn found_lie_in_blocks()
    ensures { FoundLieInBlocks }
{}

/// The bytes of a span lie in one object.
pub fn spans_lie_in_objects()
    ensures { SpansLieInObjects }
{}

/// A value that is read by a pointer is read by its word, and code may go on with it.
pub fn loads_are_reads()
    ensures { LoadsAreReads }
{
    marked_ptr::laws::owner_is_block();
}

/// A value that is written by a pointer is written by its word.
pub fn stores_are_writes()
    ensures { StoresAreWrites }
{}

/// A value that a part of an object gets at its start is written there.
pub fn initializers_are_writes()
    ensures { InitializersAreWrites }
{}

/// An object is cleared by zeros.
pub fn clears_are_zeros()
    ensures { ClearsAreZeros }
{}

/// Cells are copied as bytes are.
pub fn copies_are_bytes()
    ensures { CopiesAreBytes }
{}

/// Cells are set as bytes are.
pub fn sets_are_bytes()
    ensures { SetsAreBytes }
{}

/// Pointers compare, and lie from one another, as their words do.
pub fn comparisons_are_of_words()
    ensures { ComparisonsAreOfWords }
{
    marked_ptr::laws::words_are_apart();
    marked_ptr::laws::words_are_offsets();
    marked_ptr::laws::words_are_not_null();
    marked_ptr::laws::order_is_offsets();
    marked_ptr::laws::difference_is_offsets();
}

/// A value is true just where its word is not 0.
pub fn truth_is_of_words()
    ensures { TruthIsOfWords }
{
    marked_ptr::laws::words_are_not_null();
}

/// An object that is made where no live one is keeps it that memory holds what objects hold.
pub fn made_keeps()
    ensures { MadeKeeps }
{}

/// An object that ends keeps it.
pub fn ended_keeps()
    ensures { EndedKeeps }
{}

/// Objects come and go in their regions, and above the free part of the data stack.
pub fn places_keep()
    ensures { PlacesKeep }
{}

/// A block has the same place beside the objects of the heap and beside all, and no live object is there.
pub fn places_are_free()
    ensures { PlacesAreFree }
{
    buddy_heap::laws::place_is_least();
    buddy_heap::laws::one_place();
    size_table::laws::exponent_is_least();
}

/// An object is made in the heap just where its block is.
pub fn allocations_are_of_blocks()
    ensures { AllocationsAreOfBlocks }
{
    buddy_heap::laws::place_is_least();
    buddy_heap::laws::one_place();
    size_table::laws::exponent_is_least();
}

/// A pointer is freed just where its word is.
pub fn frees_are_of_blocks()
    ensures { FreesAreOfBlocks }
{
    marked_ptr::laws::words_are_not_null();
}

/// The objects of a frame are made, and their blocks.
pub fn entries_keep()
    ensures { EntriesKeep }
{}

/// The objects of a frame end, and their blocks.
pub fn exits_keep()
    ensures { ExitsKeep }
{}

/// The objects of a frame lie where their blocks do.
pub fn frames_are_alike()
    ensures { FramesAreAlike }
{
    block_layout::laws::layouts_lie_well();
}
