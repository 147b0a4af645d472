//! The rows of a transaction that asks for its locks, and then to prepare.

ghost use Rattle.std.specs.Prelude.{◌≡◌, ◌<◌, ◌^◌, true, length, is_some, if◌then◌else◌};
ghost use Rattle.rss_tables.specs.Locks.{after_lock, coordinator_in};
ghost use Rattle.rss_tables.specs.Prepared.{prepared_of, prepared_attempts};
ghost use Rattle.rss_tables.specs.ShardRow.{prepare_time as next_prepare_time, prepares, lock_reply, prepare_reply};
ghost use Rattle.txn_shard.specs.ShardView.{has_room_to_lock, has_room_to_prepare};

use crate::lists::{filled, reply_to};
use crate::shard::Shard;
use rss_names::{Attempt, Key, ShardId};
use rss_wire::Reply;
use shard_prepared::PreparedWriter;
use std::mem;

impl Shard {
    // Asks for the locks of an attempt.
    #[tactic(auto, using(crate::proofs::Answered::answered))]
    pub(crate) fn lock(
        &mut self,
        attempt: Attempt,
        coordinator: ShardId,
        reads: &[Key],
        writes: &[Key],
    ) -> Reply
        requires room { has_room_to_lock self.old (length reads.now) (length writes.now) ≡ true }
        ensures after { self.new.shard ≡ record self.old.shard { locks = after_lock self.old.shard.locks (prepared_attempts self.old.shard.prepared) (record { attempt = attempt; coordinator = coordinator; reads = reads.now; writes = writes.now }) } }
        ensures replies { result ≡ lock_reply self.new.shard attempt reads.now writes.now }
    {
        let prepared = self.prepared.attempts();
        let wounded = &mut self.wounded;
        let answer = self
            .locks
            .ask(attempt, coordinator, reads, writes, prepared, wounded);
        let list = mem::replace(&mut self.shown, Vec::new(self.alloc));
        reply_to(answer, &self.store, reads, list)
    }

    // Prepares an attempt that holds its locks.
    #[tactic(auto, using(crate::proofs::Answered::answered))]
    pub(crate) fn prepare(
        &mut self,
        attempt: Attempt,
        least: u64,
        earliest_end: u64,
        writes: &[(Key, u64)],
        latest: u64,
    ) -> Reply
        requires room { has_room_to_prepare self.old (length writes.now) ≡ true }
        requires small { least < 2 ^ 63 }
        ensures after { self.new.shard ≡ (if is_some (prepared_of self.old.shard.prepared attempt) then self.old.shard else prepares self.old.shard attempt (next_prepare_time self.old.shard latest least) earliest_end writes.now (coordinator_in self.old.shard.locks.holders attempt)) }
        ensures replies { result ≡ prepare_reply (prepared_of self.new.shard.prepared attempt) }
    {
        if let Some(entry) = self.prepared.get(attempt) {
            return Reply::Prepared {
                prepare_time: entry.prepare_time(),
            };
        }
        match self.locks.coordinator(attempt) {
            None => Reply::Wounded,
            Some(coordinator) => {
                let prepare_time = latest.max((self.floor + 1).max(least + 1));
                let list = mem::replace(&mut self.writes, Vec::new(self.alloc));
                let writes = filled(list, writes);
                let entry = PreparedWriter::new(
                    attempt,
                    coordinator,
                    prepare_time,
                    earliest_end,
                    writes,
                );
                self.prepared.add(entry);
                Reply::Prepared { prepare_time }
            }
        }
    }
}
