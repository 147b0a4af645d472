//! Theory: why each request to a shard was sent, which decisions shards keep, and the times of
//! transactions and snapshots against the true moments in which they begin, enter and end. Each law is the
//! contract of a function that does nothing.
#![tactic(auto)]

mod dates;
mod decisions;

pub use dates::{entries_raise_least_times, times_fit_dates};
pub use decisions::{
    decisions_are_kept, lines_wait_for_others_only_while_they_lock, requests_are_just,
    undone_attempts_hear_of_no_commit,
};
