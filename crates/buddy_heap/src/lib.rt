//! The heap: its live blocks, and places for new ones.
//!
//! A block of 2^e bytes begins at a multiple of 2^e, as in a binary buddy allocator, and comes to the least place where it
//! meets no other.
#![tactic(auto)]

pub mod heap;
pub mod laws;
