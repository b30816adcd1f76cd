//! Marked words: a pointer less than half a slot outside its block has bit 31 set.
//!
//! A word is the address that a pointer stands for, or that address with the mark. Memory is cut into slots of 16 bytes,
//! and blocks are made of whole slots; so a marked word, together with the half of its slot in which it lies, still
//! tells its block (Akritidis et al., Baggy Bounds Checking, section 3.3).
#![tactic(auto)]

pub mod answer;
pub mod laws;
pub mod words;
