//! When the runs of a machine are those of flat code: what both tell, where the machine comes to for a run of flat code with
//! a bound on its turns and calls, and that such landings for every bound give all that is said of whole runs.
#![tactic(auto)]

pub mod laws;
