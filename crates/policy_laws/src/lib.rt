//! Theory: the machine takes the steps of the serial policy.
#![tactic(auto)]

mod laws;

pub use laws::{policies_are_proper, policies_end_whole, policies_run, policy_steps_are_taken};
