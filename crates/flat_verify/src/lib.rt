//! The checker of the discipline of flat code.
//!
//! `verify::verify` answers exactly where nothing breaks the discipline, else with the first place that does. It reads the steps
//! of each function as items (`items`), lists the links between what is known at them (`edges`) and the demands on it
//! (`wanted`), marks what is lost (`rules`, `reach`), and looks for the first demand that is not met (`verdict`, `unchecked`).
//! What passes is `Verified`, which keeps the items.
#![tactic(auto)]

mod clean;
mod demands;
mod edges;
mod effects;
pub mod error;
pub mod facts;
pub mod global_blocks;
pub mod hints;
pub mod items;
pub mod marked;
mod outline;
mod program;
pub mod reach;
pub mod rules;
pub mod setting;
pub mod sheets;
mod steps;
mod unchecked;
pub mod verdict;
pub mod verified;
pub mod verify;
mod wanted;
