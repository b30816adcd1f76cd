//! Flat code that is made keeps the discipline, whatever memory holds, and weighs no more than its program.
#![tactic(auto)]

pub mod laws;
