//! The rules of the grammar as programs of six steps over tokens, and the laws of their runs.
//!
//! `specs/Programs` has the steps, `specs/Bodies` a program for each rule, and `specs/Runs` what it is for a program to run
//! over tokens. `proofs/` shows that what is read derives (`Soundness`), that what derives is read (`CompleteStatements`),
//! and where a refusal stands (`Stability`). The crates of the parser stand on these pages.
#![tactic(auto)]

ghost use Rattle.c_parser_rules.specs.Laws.{HasOneUnit};

/// Tokens derive one tree of a file, whatever the limits on nesting.
pub fn one_unit()
    ensures { HasOneUnit }
{}
