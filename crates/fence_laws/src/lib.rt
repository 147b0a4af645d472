//! Theory: a fence waits until the least time of its service has come.
#![tactic(auto)]

mod laws;

pub use laws::{fences_end_when_times_have_come, steps_of_times_fit_moments};
