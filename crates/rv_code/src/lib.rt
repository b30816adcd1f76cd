//! The instructions of RV32IM, and the words that encode them.
#![tactic(auto)]

pub mod decode;
pub mod encode;
mod fields;
pub mod instr;
pub mod laws;
mod opcodes;
