//! Theory: what each change of stages, pipes, owners and their copies does to what contexts cover.
#![tactic(auto)]

mod laws;

pub use laws::{counted_steps_keep_covering, served_requests_keep_covering, states_are_views};
