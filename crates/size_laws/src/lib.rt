//! Theory: how great times are in every run, what form contexts and works have, how many chunks lie in pipes, and
//! whom lines wait for.
#![tactic(auto)]

mod laws;

pub use laws::{lines_wait_for_calls, pipes_have_room, times_are_bounded};
