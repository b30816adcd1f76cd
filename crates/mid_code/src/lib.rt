//! Mid code: structured code over objects and numbered values, between the typed tree and code over words.
#![tactic(auto)]

pub mod code;
pub mod laws;
pub mod safe;
