//! From the typed tree to mid code.
//!
//! `lower::lower` answers with the code of a typed program, or with the first limit that the program passes; `specs/Lowers`
//! says what holds of each answer.
#![tactic(auto)]

pub mod lower;
