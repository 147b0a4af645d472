//! The rows that decide an attempt and end it.

ghost use Rattle.std.specs.Prelude.{◌≡◌, ◌<◌, ◌^◌, nat_lt, true, is_some, if◌then◌else◌};
ghost use Rattle.rss_tables.specs.Attempts.{has_attempt};
ghost use Rattle.rss_tables.specs.Prepared.{prepared_of};
ghost use Rattle.rss_tables.specs.ShardRow.{decision_in, keeps_decision, asked_outcome, commits, tombstones, aborts, can_release, releases, releases_last, decide_reply, inquire_reply};
ghost use Rattle.txn_shard.specs.ShardView.{has_room_to_commit, has_room_to_release};

use crate::applying::apply;
use crate::decisions::{decision_of, keep, note_released, was_released};
use crate::shard::Shard;
use rss_names::Attempt;
use rss_wire::{Outcome, Reply};

impl Shard {
    // Decides an attempt, where it is not decided yet.
    pub(crate) fn decide(&mut self, attempt: Attempt, commit: bool, time: u64, latest: u64) -> Reply
        requires room { nat_lt 0 self.old.room.decisions ≡ true }
        ensures after { self.new.shard ≡ keeps_decision self.old.shard attempt (asked_outcome commit time latest) }
        ensures replies { result ≡ decide_reply (decision_in self.new.shard.decisions attempt) }
    {
        let outcome = asked(commit, time, latest);
        keep(&mut self.decisions, attempt, outcome);
        match decision_of(&self.decisions, attempt) {
            None => Reply::Open,
            Some(outcome) => Reply::Decided { outcome },
        }
    }

    // Commits a prepared attempt; one that is not prepared is tombstoned alone.
    #[tactic(auto, using(crate::proofs::Answered::answered))]
    pub(crate) fn commit(&mut self, attempt: Attempt, commit_time: u64) -> Reply
        requires room { has_room_to_commit self.old attempt ≡ true }
        requires small { commit_time < 2 ^ 63 }
        ensures after { self.new.shard ≡ tombstones (commits self.old.shard attempt commit_time (prepared_of self.old.shard.prepared attempt)) attempt }
        ensures replies { result ≡ Reply.Done }
    {
        if let Some(entry) = self.prepared.take(attempt) {
            self.locks.release(attempt);
            apply(&mut self.store, attempt.call, commit_time, entry.writes());
            self.floor = self.floor.max(commit_time);
            self.locks.tombstone(attempt);
            return Reply::Done;
        }
        self.locks.tombstone(attempt);
        Reply::Done
    }

    // Aborts an attempt.
    pub(crate) fn abort(&mut self, attempt: Attempt) -> Reply
        requires room { is_some self.old.room.locks ≡ true }
        ensures after { self.new.shard ≡ aborts self.old.shard attempt }
        ensures replies { result ≡ Reply.Done }
    {
        self.locks.release(attempt);
        self.locks.tombstone(attempt);
        let _entry = self.prepared.take(attempt);
        Reply::Done
    }

    // Tells the decision of an attempt.
    pub(crate) fn inquire(&self, attempt: Attempt) -> Reply
        ensures { result ≡ inquire_reply (decision_in self.now.shard.decisions attempt) }
    {
        match decision_of(&self.decisions, attempt) {
            None => Reply::Open,
            Some(outcome) => Reply::Outcome { outcome },
        }
    }

    // Gives the locks back of an attempt whose guard failed.
    #[tactic(auto, using(crate::proofs::Answered::answered))]
    pub(crate) fn release(&mut self, attempt: Attempt, time: u64, last: bool) -> Reply
        requires room { has_room_to_release self.old ≡ true }
        requires small { time < 2 ^ 63 }
        ensures after { self.new.shard ≡ (if can_release self.old.shard attempt then releases_last (releases self.old.shard attempt time) attempt last else self.old.shard) }
        ensures replies { result ≡ (if has_attempt self.new.shard.released attempt then Reply.Released else Reply.Wounded) }
    {
        if was_released(&self.released, attempt) {
            return Reply::Released;
        }
        if !self.locks.holds(attempt) || self.prepared.get(attempt).is_some() {
            return Reply::Wounded;
        }
        self.locks.release(attempt);
        self.locks.tombstone(attempt);
        self.floor = self.floor.max(time);
        note_released(&mut self.released, attempt);
        if last {
            keep(&mut self.decisions, attempt, Outcome::Aborted);
        }
        Reply::Released
    }
}

// The outcome that a request to decide asks for.
fn asked(commit: bool, time: u64, latest: u64) -> Outcome
    ensures { result ≡ asked_outcome commit time latest }
{
    if commit {
        Outcome::Committed(time.max(latest))
    } else {
        Outcome::Aborted
    }
}
