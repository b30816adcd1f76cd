//! The typing of whole files of C: their declarations and definitions, in the order of the text.
#![tactic(auto)]

pub mod bodies;
pub mod declarations;
pub mod file;
pub mod functions;
pub mod objects;
pub mod unit;
