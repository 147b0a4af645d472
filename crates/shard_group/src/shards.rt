//! A shard is a machine: it replies what one shard of its keys replies.

use crate::machine::Machine;
use rss_wire::{Reply, Request};
use std::alloc::AllocError;
use truetime::Interval;
use txn_shard::Shard;

impl Machine for Shard {
    ghost use Rattle.group_tables.specs.OneShard.{shard_replies, one_shard};
    ghost use Rattle.group_tables.proofs.OneShard.{replies_to_nothing};
    ghost use Rattle.shard_versions.specs.Rows.{keys_of};
    ghost use Rattle.txn_shard.specs.ShardView.{has_room as has_room_for, has_small_times};

    ghost fits = { λ s r. has_small_times r };

    ghost answers = { λ s. shard_replies s.shard };

    ghost keys = { λ s. keys_of s.shard.store };

    ghost replies_of = { one_shard };

    ghost has_room = { has_room_for };

    ghost answers_nothing = { λ s. replies_to_nothing s.shard };

    fn make_room(&mut self, r: &Request) -> Result<(), AllocError> {
        Shard::make_room(self, r)
    }

    fn apply(&mut self, r: &Request, at: Interval) -> Reply {
        self.handle(r, at)
    }

    fn reopen(&mut self) {
        Shard::reopen(self)
    }
}
