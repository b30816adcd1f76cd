//! The typed tree of C programs: types, expressions with their conversions, statements, and the rules of typing.
#![tactic(auto)]

pub mod typed;
pub mod typed_expr;
pub mod typed_laws;
pub mod typed_stmt;
pub mod types;
