//! Flat code: structured code over words and bytes, which is what instrumented programs are before instructions are
//! selected for them.
//!
//! A function has numbered values, each a word of 32 bits. Its body is a list of steps. Pointers are words, and memory
//! is bytes; there are no objects. What a step does is defined in `specs/`, with the time that it takes.
#![tactic(auto)]

pub mod code;
pub mod emit;
pub mod recognize;
pub mod same;
