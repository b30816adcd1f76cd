//! The parser of expressions, with the tokens that are left, and the specifiers of types that casts begin with.
#![tactic(auto)]

pub mod cursor;
pub mod expression;
pub mod leaf;
mod measured;
mod operator;
mod postfix;
pub mod specifier;
