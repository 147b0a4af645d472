//! Code: a slow and plain function that computes what the model defines of a stage's script: whether
//! the entries of a stage are a prefix of what its script gives.
#![tactic(auto)]

mod leads;
mod runs;
mod table;
mod told;
mod ways;

pub use runs::script_run;
