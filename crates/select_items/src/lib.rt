//! Selected lists of items.
#![tactic(auto)]
