//! Theory: how much there is of everything in every run.
#![tactic(auto)]

mod laws;

pub use laws::sizes_are_counted;
