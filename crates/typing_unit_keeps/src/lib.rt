//! What holds of each file that is typed: its program keeps every rule of typing, and its lines are lines of the text.
//!
//! `specs/Units` has the typing of whole files as a function on syntax trees, `laws` the laws.
#![tactic(auto)]

pub mod laws;
