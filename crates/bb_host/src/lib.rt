//! The outside of a host: the files of the system as a shelf, standard input as a source, and standard output and standard
//! error as sinks.
#![tactic(auto)]

pub mod files;
pub mod streams;
