//! The image of a program: what the compiler makes and the machine runs.
//!
//! An image has one spelling as bytes: the letters `BAGY`, and then its fields without gaps, each of them a number of
//! four bytes with the lowest first, or bytes or words behind their count. [`write`] gives the spelling, and [`read`]
//! the image of a spelling, or the first rule that the bytes break.
#![tactic(auto)]

pub mod error;
pub mod image;
pub mod laws;
mod reading;
mod writing;

pub use error::ImageError;
pub use reading::read;
pub use writing::write;
