//! The rules of typing that need no names: conversions, operators, constant expressions, and the sizes of types.
#![tactic(auto)]

pub mod assignments;
pub mod binary;
pub mod constants;
pub mod conversions;
pub mod error;
pub mod laws;
pub mod layout;
pub mod places;
pub mod sizes;
pub mod unary;
