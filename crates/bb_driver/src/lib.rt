//! The driver: the compiler composes the layers, and what they say together makes an image right.
#![tactic(auto)]

pub mod compile;
pub mod error;
mod image;
pub mod laws;
pub mod source;
