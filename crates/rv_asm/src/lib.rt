//! Labelled parts of code, and the words that they are resolved to.
//!
//! A text is written as parts: instructions, labels, and branches and jumps to labels. `resolve::resolve` gives its
//! words, each branch and jump in the shortest form that reaches its label. What it ensures says what the machine does
//! at each part, so what is proved of parts needs neither words nor distances.
#![tactic(auto)]

mod code;
mod emit;
mod labels;
pub mod parts;
mod places;
pub mod resolve;
