//! The events of a run.
#![tactic(auto)]

pub mod event;
pub mod laws;
