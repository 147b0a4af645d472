//! Serving a request, and room for it.

ghost use Rattle.std.specs.Prelude.{◌≡◌, true, OnOk};
ghost use Rattle.rss_tables.specs.ShardRow.{shard_after, shard_reply};
ghost use Rattle.txn_shard.specs.ShardView.{has_room, has_small_times};

use crate::shard::Shard;
use rss_wire::{Reply, Request};
use std::alloc::AllocError;
use truetime::Interval;

impl Shard {
    /// Serves a request at a reading of the time: the rows of the tables, exactly. A request of a
    /// replica is answered by `Done` and changes nothing. Takes no memory.
    #[tactic(auto, unfolding(rss_tables::specs::ShardRow::shard_after, rss_tables::specs::ShardRow::shard_reply, crate::specs::ShardView::has_room, crate::specs::ShardView::has_small_times))]
    pub fn handle(&mut self, r: &Request, at: Interval) -> Reply
        requires room { has_room self.old r.now ≡ true }
        requires times { has_small_times r.now ≡ true }
        ensures after { self.new.shard ≡ shard_after self.old.shard at.latest r.now }
        ensures replies { result ≡ shard_reply self.old.shard at.latest r.now }
    {
        let latest = at.latest();
        match r {
            Request::Lock {
                attempt,
                coordinator,
                reads,
                writes,
            } => self.lock(*attempt, *coordinator, reads.as_slice(), writes.as_slice()),
            Request::Prepare {
                attempt,
                least,
                earliest_end,
                writes,
            } => self.prepare(*attempt, *least, *earliest_end, writes.as_slice(), latest),
            Request::Decide {
                attempt,
                commit,
                time,
            } => self.decide(*attempt, *commit, *time, latest),
            Request::Commit {
                attempt,
                commit_time,
            } => self.commit(*attempt, *commit_time),
            Request::Abort { attempt } => self.abort(*attempt),
            Request::Inquire { attempt } => self.inquire(*attempt),
            Request::Release {
                attempt,
                time,
                last,
            } => self.release(*attempt, *time, *last),
            Request::Snapshot {
                read_time,
                least,
                keys,
                skip,
            } => self.snapshot(*read_time, *least, keys.as_slice(), *skip),
            Request::Fix { .. }
            | Request::Ask { .. }
            | Request::Stamp { .. }
            | Request::Store { .. } => Reply::Done,
        }
    }

    /// Makes room for all that a request needs. What the shard keeps stays. An `Err` is want of memory.
    #[tactic(auto, unfolding(crate::specs::ShardView::has_room))]
    pub fn make_room(&mut self, r: &Request) -> Result<(), AllocError>
        ensures same { self.new.shard ≡ self.old.shard }
        ensures room { OnOk result (has_room self.new r.now ≡ true) }
    {
        match r {
            Request::Lock { reads, writes, .. } => self.room_to_lock(reads.len(), writes.len()),
            Request::Prepare { writes, .. } => self.room_to_prepare(writes.len()),
            Request::Decide { .. } => self.room_to_decide(),
            Request::Commit { attempt, .. } => self.room_to_commit(*attempt),
            Request::Abort { .. } => self.room_to_end(),
            Request::Release { .. } => self.room_to_release(),
            Request::Snapshot { keys, .. } => self.room_to_read(keys.len()),
            Request::Inquire { .. }
            | Request::Fix { .. }
            | Request::Ask { .. }
            | Request::Stamp { .. }
            | Request::Store { .. } => Ok(()),
        }
    }
}
