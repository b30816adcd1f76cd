//! Words of 32 bits, the kinds of reports and traps, the operations of intermediate code, and the list
//! type of the machine's crates.
#![tactic(auto)]

pub mod kinds;
pub mod list;
pub mod steps;
pub mod word;
