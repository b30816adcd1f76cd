//! Mid code means what its program means: the simulation, with its time, its weight, and that it is well formed.
//!
//! `specs/Keeps` says what it is for code to mean what a program means.
#![tactic(auto)]

pub mod laws;
