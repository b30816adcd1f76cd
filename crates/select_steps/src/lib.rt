//! Selected steps on values, constructs, and pointers' slots.
#![tactic(auto)]
