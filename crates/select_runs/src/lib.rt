//! What the machine does that runs selected code: what flat code does.
//!
//! The machine whose text is the selected code of a program lands beside each run of flat code, whatever the bound on turns
//! and nested calls, if each step that the run comes to is in reach. This is proved for programs whose frames have no objects,
//! without malloc, free and the sequences that check pointers.
#![tactic(auto)]

pub mod laws;
