//! Theory: how many steps are enough for a file. Steps are counted against requests, losses against what the file
//! withholds, and what the stages may cost against the budget. That the requests of a run cost no more than that is
//! not shown here.
#![tactic(auto)]

mod laws;

pub use laws::{costs_are_enough, losses_are_withheld, steps_are_paid, turns_are_paid};
