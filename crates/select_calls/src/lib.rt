//! Selected calls and functions, with the frames that they push.
#![tactic(auto)]
