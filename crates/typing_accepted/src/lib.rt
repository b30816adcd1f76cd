//! Which files of C the language accepts, as a relation between syntax trees and typed ones, with a rule for each form and
//! no order among the rules.
#![tactic(auto)]

pub mod laws;
