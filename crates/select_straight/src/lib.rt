//! Selected code without jumps: reads and writes of values, and the environment calls in it.
#![tactic(auto)]
