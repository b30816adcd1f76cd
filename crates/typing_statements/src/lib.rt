//! The typing of statements and of the declarations in them.
#![tactic(auto)]

pub mod statement;
