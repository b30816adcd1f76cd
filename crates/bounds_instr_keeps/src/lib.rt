//! Flat code does what its mid code does: the simulation.
//!
//! `specs/Keeps` says what that is, for every input and every bound on turns and nested calls.
#![tactic(auto)]

pub mod laws;
