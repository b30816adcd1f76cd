//! What a C program means: objects with their cells, pointers to them, and the runs of the typed tree.
//!
//! The definitions stand in `specs/`, a page a topic: `Objects` and `Worlds` what a run holds, `Moves`, `Accesses`,
//! `Comparisons`, `Copies` and `Accounts` what may be done with it, `Start` the world before a run, `Numbers` the operators
//! on numbers, `Sites` the numbers of pointer moves, `States` and `Operators` what a running call does with its operands,
//! `Meaning` the meaning of expressions and statements, `Runs` that of calls and whole programs, and the time that compiled
//! code may take. They know nothing of machines. `Laws` says what follows for all programs, and the pages `Examples` what
//! small programs come to.
#![tactic(auto)]

pub mod examples;
pub mod laws;
pub mod places;
pub mod values;
