//! When the machine that runs selected code stands beside flat code, and what a step may change of it.
//!
//! `specs/Loaded` has the memory and the registers on both sides, `specs/InReach` which steps are in reach, `specs/Fits` and
//! `specs/ImageOf` for which programs and images this is shown.
#![tactic(auto)]
