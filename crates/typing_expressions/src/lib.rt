//! The typing of expressions: names are looked up among what is declared, and each operand is converted where it stands.
//!
//! `table` and `scene` say what is declared, `parts` what a declarator says in its order, `expression` and `calls` type each form.
#![tactic(auto)]

pub mod calls;
pub mod expression;
pub mod parts;
pub mod scene;
pub mod table;
