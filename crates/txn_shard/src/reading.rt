//! The row of a snapshot.

ghost use Rattle.std.specs.Prelude.{◌≡◌, ◌<◌, ◌^◌, max, true, length, if◌then◌else◌};
ghost use Rattle.rss_tables.specs.Prepared.{blocking as ones_blocking, passed_by, named_blocking, named_skipped};
ghost use Rattle.rss_tables.specs.Versions.{versions_at};
ghost use Rattle.rss_tables.specs.ShardRow.{is_clear};
ghost use Rattle.txn_shard.specs.ShardView.{has_room_to_read};

use crate::lists::versions_at_time;
use crate::shard::Shard;
use rss_names::{Key, Seq};
use rss_wire::Reply;
use std::mem;

impl Shard {
    // Reads keys at a time, where no prepared writer is in the way.
    #[tactic(auto, using(crate::proofs::Answered::answered))]
    pub(crate) fn snapshot(&mut self, read_time: u64, least: u64, keys: &[Key], skip: bool) -> Reply
        requires room { has_room_to_read self.old (length keys.now) ≡ true }
        requires small { read_time < 2 ^ 63 }
        ensures after { self.new.shard ≡ (if is_clear self.old.shard keys.now read_time least skip then record self.old.shard { floor = max self.old.shard.floor read_time } else self.old.shard) }
        ensures replies { result ≡ (if is_clear self.old.shard keys.now read_time least skip then Reply.Values (versions_at self.old.shard.store keys.now read_time) (named_skipped (passed_by self.old.shard.prepared keys.now read_time least skip)) else Reply.Blocked (named_blocking (ones_blocking self.old.shard.prepared keys.now read_time least skip))) }
    {
        let mut blocking = mem::replace(&mut self.blocking, Vec::new(self.alloc));
        let mut skipped = mem::replace(&mut self.skipped, Vec::new(self.alloc));
        self.prepared
            .sift(keys, read_time, least, skip, &mut blocking, &mut skipped);
        if !blocking.is_empty() {
            return Reply::Blocked {
                holders: Seq::from_vec(blocking),
            };
        }
        let list = mem::replace(&mut self.shown, Vec::new(self.alloc));
        let versions = versions_at_time(&self.store, keys, read_time, list);
        self.floor = self.floor.max(read_time);
        Reply::Values {
            versions,
            skipped: Seq::from_vec(skipped),
        }
    }
}
