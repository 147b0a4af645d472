//! Theory: what one shard of a transaction service keeps, whatever requests it serves in whatever order, and
//! what it shows and closes, request by request.
#![tactic(auto)]

mod answers;
mod applying;
mod closing;
mod decisions;
mod fitting;
mod locks;
mod prepared;
mod shown;
mod times;
mod versions;

pub use answers::{
    answers_are_fresh, answers_close_what_they_show_for_keys, answers_name_the_prepared,
};
pub use applying::{commits_apply, releases_close_what_was_shown};
pub use closing::{closed_times_are_in_order, closed_versions_stay, shards_stay_orderly};
pub use decisions::{decisions_are_asked_for, decisions_stay};
pub use fitting::{
    commits_write_what_was_prepared, keys_stay, locked_versions_stay, prepared_replies_are_true,
    prepared_writes_stay_locked, releases_close_what_was_locked, told_decisions_are_kept,
};
pub use locks::{
    each_attempt_holds_once, granted_attempts_are_shown_the_newest_versions,
    locks_are_granted_where_asked_for, locks_are_held_without_a_break,
    locks_are_lost_to_older_attempts_or_given_back, locks_exclude, released_attempts_are_gone,
    tombstoned_attempts_without_locks_are_gone, tombstones_stay,
    waiting_attempts_are_told_who_is_in_their_way,
};
pub use prepared::{
    attempts_are_prepared_once, entries_stay_until_settled, prepare_times_are_new,
    prepared_attempts_have_one_entry, prepared_attempts_hold,
};
pub use shown::{
    granted_attempts_hold_what_they_are_shown, prepared_attempts_stay_until_settled,
    shown_versions_stay,
};
pub use times::{
    answered_snapshots_raise_the_floor, later_prepare_times_are_above_the_floor,
    the_floor_never_falls,
};
pub use versions::{
    answers_close_what_they_show, answers_pass_by_rightly, blocked_snapshots_are_told_who_blocks,
    closed_times_stay_closed, versions_at_closed_times_stay, versions_come_from_prepared_attempts,
    versions_rise_up_to_the_floor,
};
