//! Selected accesses to memory and the looks at the table.
#![tactic(auto)]
