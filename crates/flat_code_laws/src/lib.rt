//! Laws of flat code: what its sequences do, that more bounds change nothing that was told, and worked programs.
#![tactic(auto)]

pub mod laws;
