//! A typed program never comes to a value of the wrong kind: where a number is wanted there is a number, where a pointer is
//! wanted a pointer, and where a place is wanted a place. `specs/Kinds` says what holds of each part of a run, `specs/Laws`
//! states the laws, and `specs/Examples` has programs that are not typed and do come there.
#![tactic(auto)]

pub mod laws;
