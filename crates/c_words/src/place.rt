//! Names, and places in the text.
use bb_words::list::List;

/// The bytes of an identifier (C11 6.4.2), a string's without its final zero, and lists.
pub use bb_words::list::Bytes;

/// The bytes of an identifier (C11 6.4.2).
pub type Name = List<u8>;

/// Where a node of a tree stands: the number of a token, from 0, and the token's line, from 1.
#[derive(Clone, Copy, Debug, PartialEq, Eq)]
pub struct At {
    pub token: u32,
    pub line: u32,
}
