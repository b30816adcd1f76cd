//! The machine: an emulator of RV32IM with the environment calls of compiled code, that runs an image.
#![tactic(auto)]

mod access;
mod blocks;
mod core_step;
pub mod events;
pub mod frames;
pub mod machine;
mod memory;
pub mod stop;
mod told;
