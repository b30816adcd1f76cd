//! The words of C: keywords, punctuators and operators, and places in a text.
#![tactic(auto)]

pub mod operators;
pub mod place;
pub mod words;
