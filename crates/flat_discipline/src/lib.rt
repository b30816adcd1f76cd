//! The discipline of flat code, which makes code safe whatever memory holds, and that it does.
//!
//! `specs/Items` reads steps as items, `specs/Facts` and `specs/Chains` say what a place knows of its values, and
//! `specs/Breaks` and `specs/Discipline` what breaks the discipline, and which break is the first. `laws` has the theorems.
#![tactic(auto)]

pub mod laws;
