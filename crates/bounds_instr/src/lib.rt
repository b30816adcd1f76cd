//! From mid code to flat code: objects become blocks of memory, values become words, and each pointer move is guarded.
//!
//! `instrument::instrument` answers with the flat code of a program, or that the program has a form that is not built;
//! `specs/Instruments` says what holds of each answer.
#![tactic(auto)]

pub mod error;
pub mod instrument;
