//! What a typed program has, by which it is judged before its code is made: its nodes, the values of its functions, and whether
//! its forms are built.
//!
//! `specs/Counting` says what is counted, `specs/Built` which programs are built so far, those of numbers, and `specs/Limits`
//! has the limits and which of them is passed first. `counts::counts_of` counts all of it in one walk over each function, and
//! `limits::within_limits` judges the counts.
#![tactic(auto)]

mod built;
pub mod counts;
pub mod error;
pub mod limits;
pub mod survey;
pub mod survey_stmt;
