//! What holds of marked words, for what stands on them.
ghost use Rattle.marked_ptr.specs.Laws.{OwnerIsBlock, MovesAreOffsets, MovesStayInReach, MovesByTests, WordsAreApart};
ghost use Rattle.marked_ptr.specs.Laws.{WordsAreOffsets, WordsAreNotNull, OrderIsOffsets, DifferenceIsOffsets};

/// A pointer in its block, or less than half a slot outside, is owned by a slot of that block.
pub fn owner_is_block()
    ensures { OwnerIsBlock }
{}

/// A pointer that is moved comes to the sum of its offset and the distance, or is reported.
pub fn moves_are_offsets()
    ensures { MovesAreOffsets }
{}

/// Whatever a word is, what its move comes to lies in its owner's block or less than half a slot outside.
pub fn moves_stay_in_reach()
    ensures { MovesStayInReach }
{}

/// Two unsigned tests give a move's answer.
pub fn moves_by_tests()
    ensures { MovesByTests }
{}

/// Pointers into blocks that do not meet have different words.
pub fn words_are_apart()
    ensures { WordsAreApart }
{}

/// Pointers into one block have one word only at one offset.
pub fn words_are_offsets()
    ensures { WordsAreOffsets }
{}

/// No pointer into a block has the word of the null pointer.
pub fn words_are_not_null()
    ensures { WordsAreNotNull }
{}

/// The order of words into one block is that of their offsets.
pub fn order_is_offsets()
    ensures { OrderIsOffsets }
{}

/// The difference of words into one block is that of their offsets.
pub fn difference_is_offsets()
    ensures { DifferenceIsOffsets }
{}
