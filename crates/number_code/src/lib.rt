//! The middle of the compiler makes, of a program of numbers, only the flat code that the selection of instructions is
//! proved for.
//!
//! `laws` has the theorems: they join what lowering, instrumenting and the selection say of code.
#![tactic(auto)]

pub mod laws;
