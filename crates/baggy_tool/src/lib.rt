//! The tool: it does what the words of the command line say.
//!
//! `run::baggy_run` reads the file, makes its image, runs that on the machine, and notes how the call ended.
#![tactic(auto)]

mod decimal;
pub mod ending;
pub mod laws;
pub mod notes;
mod reader;
mod refusals;
pub mod run;
mod words;
