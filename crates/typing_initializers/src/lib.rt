//! The typing of initializers: the values that objects begin with, their bytes where they are constant, and which objects have their address taken.
#![tactic(auto)]

pub mod initial_bytes;
pub mod initializer;
pub mod marks;
