//! What is promised of a call of the tool that runs a file of C: one law, for a reader who has the file and not this program's
//! sources.
#![tactic(auto)]

pub mod laws;
