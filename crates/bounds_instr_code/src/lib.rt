//! The flat code of mid code as a function on trees, and the code that makes it.
//!
//! `specs/Code` has the flat code of a program, `specs/Built` says which programs are built so far, those whose objects are
//! all of the heap. `program::instrumented` makes the code of a program, and `built::is_built` tests for the forms.
#![tactic(auto)]

pub mod built;
pub mod code_steps;
pub mod emit;
mod pointers;
pub mod program;
