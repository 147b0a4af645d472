//! Theory: majorities of replicas, what they hold, and what a round hears of them.
#![tactic(auto)]

mod heard;
mod majority;

pub use heard::{
    greatest_is_at_least_each_heard, open_rounds_have_a_replica_left,
    reached_rounds_hear_a_majority, reached_rounds_hear_what_a_majority_held,
    reached_rounds_tell_of_a_majority,
};
pub use majority::{majorities_hold_up_to_the_greatest, majorities_meet};
