//! Tests of instructions, images, labels and selected code, apart from their crates, so that the proofs there are checked once.
#![tactic(auto)]

pub mod around;
#[cfg(test)]
mod code;
#[cfg(test)]
mod images;
#[cfg(test)]
mod labels;
pub mod programs;
#[cfg(test)]
mod selected;
