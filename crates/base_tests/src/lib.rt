//! Tests of the crates at the bottom, apart from them, so that the proofs there are checked once.
#![tactic(auto)]

#[cfg(test)]
mod blocks;
#[cfg(test)]
mod events;
#[cfg(test)]
mod heap;
#[cfg(test)]
mod outside;
#[cfg(test)]
mod pointers;
#[cfg(test)]
mod words;
