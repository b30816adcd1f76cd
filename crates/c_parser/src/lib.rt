//! The parser of C: from tokens to the syntax tree.
#![tactic(auto)]

mod array;
mod declaration;
mod declarator;
mod initializer;
mod parameter;
mod parser;
mod simple;
mod statement;
mod trees;
mod unit;

pub use parser::{ParseError, parse};
