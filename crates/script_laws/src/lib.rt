//! Theory: the walk of a stage's script along a history as a function, step by step.
#![tactic(auto)]

mod laws;

pub use laws::{
    entries_lead_to_one, silent_steps_are_one, silent_steps_end, states_are_there,
    takes_are_of_what_was_told,
};
