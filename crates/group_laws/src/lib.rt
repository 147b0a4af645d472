//! Theory: a group that keeps one log agrees on each of its slots, whatever is lost, repeated or crashed.
#![tactic(auto)]

mod laws;

pub use laws::{
    applied_are_told, groups_begin_sound, one_is_chosen, steps_keep_groups_sound, told_are_chosen,
};
