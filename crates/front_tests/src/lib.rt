//! Tests of the layers that read C, apart from their crates, so that the proofs there are checked once.
#![tactic(auto)]

#[cfg(test)]
mod files;
#[cfg(test)]
mod rules;
#[cfg(test)]
mod tokens;
