//! Moves that are taken as safe.
use crate::code::MidObject;
use bb_words::list::List;

/// A pointer move that needs no check, by its number in the program, and the object that it stays in.
#[derive(Clone, Copy, Debug, PartialEq, Eq)]
pub struct SafeSite {
    pub site: u32,
    pub object: MidObject,
}

/// The pointer moves of a program that need no check, by rising numbers.
#[derive(Debug, Drop)]
pub struct SafeSites {
    pub sites: List<SafeSite>,
}
