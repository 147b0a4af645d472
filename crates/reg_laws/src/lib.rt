//! Theory: the rounds of register calls and of dependencies, and what replicas keep, in every run.
#![tactic(auto)]

mod laws;

pub use laws::{
    covered_stand_before, currents_are_awaited, effects_follow_entry, ends_are_held,
    ends_are_in_time, ends_are_seen, fixes_come_first, fixes_end_settled, heard_replies_are_own,
    places_are_inside, reads_are_legal, replies_prove_holding, replies_tell_of_before,
    rounds_see_steps, rounds_see_what_was_held, sessions_agree, stamps_are_unique,
    what_is_held_was_stored,
};
