//! Tests of the tool, apart from its crate, so that the proofs there are checked once.
#![tactic(auto)]

#[cfg(test)]
mod bodies;
#[cfg(test)]
mod calls;
#[cfg(test)]
mod expressions;
#[cfg(test)]
mod many;
#[cfg(test)]
mod operators;
#[cfg(test)]
mod orders;
#[cfg(test)]
mod places;
#[cfg(test)]
mod refused;
#[cfg(test)]
mod rules;
