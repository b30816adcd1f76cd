//! The typing of declarations: scopes, declarators and their types, and the structs that are defined.
#![tactic(auto)]

pub mod declarator;
pub mod scopes;
pub mod structs;
