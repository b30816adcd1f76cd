//! From flat code to parts of RV32IM code.
//!
//! `select::select` gives the parts that `rv_selected` defines: `steps`, `checks` and `items` those of steps, of the sequences
//! that check pointers and of lists of steps, `functions` those of functions and of the start code.
#![tactic(auto)]

mod checks;
mod emit;
mod functions;
mod items;
pub mod select;
mod steps;
mod words;
