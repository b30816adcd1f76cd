//! What a pointer's move comes to.
use bb_words::word::Word;

/// Where a move comes to.
#[derive(Clone, Copy, Debug, PartialEq, Eq)]
pub enum MoveAnswer {
    /// Into the block: the address.
    Inside(Word),
    /// Less than half a slot outside the block: the address with the mark.
    Marked(Word),
    /// Further off, or the word has no owner.
    Report,
}
