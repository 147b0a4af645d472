//! Theory: what the sessions of transactions and snapshots do, reply by reply. Each law is the
//! contract of a function that does nothing.
#![tactic(auto)]

mod lines;
mod sessions;
mod turns;

pub use lines::{
    keys_are_on_the_lines_of_their_homes, lines_of_a_call_are_of_shards_apart,
    lines_that_alone_show_a_key_are_read, shards_show_what_was_asked_for,
    shown_and_prepared_times_are_not_above_the_greatest, writes_on_a_line_are_those_of_its_keys,
};
pub use sessions::{snapshots_keep_what_they_are, transactions_keep_what_they_are};
pub use turns::{
    snapshots_do_one_of_these_with_a_reply, transactions_do_one_of_these_with_a_reply,
};
