//! Theory: the transactions of every run, over what their shards keep.
#![tactic(auto)]

mod shards;

pub use shards::{
    replies_stay_true, replies_were_given, shards_are_reached, shards_serve_what_was_sent,
    what_is_new_was_asked_for,
};
