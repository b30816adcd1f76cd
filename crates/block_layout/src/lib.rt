//! Where the objects of a program lie in memory.
//!
//! Each object is padded to a power of two of at least a slot (Akritidis, Costa, Castro and Hand, "Baggy Bounds
//! Checking", USENIX Security 2009, section 3). The global objects, and the block locals of each function, lie one
//! after another by declining padded size, so that each begins at a multiple of its own.
//!
//! `specs/Layout` and `specs/Objects` say what a layout is, `specs/Answers` what the calls `globals` and `frame` answer.
//! `laws` has what follows for every layout: its blocks are aligned and leave no gaps.
#![tactic(auto)]

pub mod error;
pub mod frame;
pub mod globals;
pub mod laws;
mod object;

pub use size_table::padding::exponent;
