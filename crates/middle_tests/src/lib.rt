//! The middle of the compiler put together: programs go from the typed tree to flat code.
#![tactic(auto)]

pub mod laws;
#[cfg(test)]
mod sequences;
#[cfg(test)]
mod tests;
