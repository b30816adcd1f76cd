//! The parts of RV32IM code that are selected for flat code, as a function on flat code, and what holds of them.
//!
//! `specs/Registers` says where things stand while selected code runs, `specs/Steps`, `specs/Checks` and `specs/Selection` which parts are selected.
#![tactic(auto)]

pub mod laws;
