//! What the places and the literals of a syntax tree are.
#![tactic(auto)]

mod laws;

pub use laws::{derived_is_in_range, text_is_in_range, tokens_are_in_range};
