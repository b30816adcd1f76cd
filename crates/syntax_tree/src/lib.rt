//! The syntax of C: its trees and its grammar.
#![tactic(auto)]

pub mod syntax;
