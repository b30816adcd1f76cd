//! Laws of the machine over whole runs: what a run keeps, what it tells, which runs are safe, and worked runs.
#![tactic(auto)]

pub mod examples;
pub mod laws;
