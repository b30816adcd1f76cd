//! The mid code of a typed program as a function on trees, and the code that makes it.
//!
//! `specs/Lower` has the code of a program. `code_expr` and `code_stmt` make the code of expressions and statements, and
//! `program::lowered` that of a whole program.
#![tactic(auto)]

pub mod code_expr;
pub mod code_stmt;
pub mod emit;
pub mod program;
