//! The shards together.

ghost use Rattle.std.specs.Prelude.{◌≡◌, ◌+◌, ◌≤◌, ◌<◌, ◌^◌, true, length, IfOk, OnOk};
ghost use Rattle.rss_machine.specs.State.{shards_from};
ghost use Rattle.rss_tables.specs.ShardRow.{decision_in, shard_reply};
ghost use Rattle.txn_shard.specs.ShardView.{has_room, has_small_times};
ghost use Rattle.txn_world.specs.Shards.{shards_in, shard_in, view_in, served_by, time_kept};

use crate::opening::add_shards;
use pipeline_lang::Config;
use rss_names::{Attempt, ShardId};
use rss_wire::{Outcome, Reply, Request};
use std::alloc::{AllocError, Global};
use std::marker::Model;
use truetime::Interval;
use txn_shard::Shard;

/// The shards of all transaction services, number n at place n - 1. Contracts see each shard as the
/// tables have it, and for how much it has room.
#[derive(Drop)]
pub struct TxnWorld {
    shards: Vec<Shard>,
}

impl Model for TxnWorld {
    ghost use Rattle.std.specs.Prelude.{List};
    ghost use Rattle.txn_shard.specs.ShardView.{ShardView};

    ghost Value = { List ShardView };

    ghost view = { λ w. w.shards.items };
}

impl TxnWorld {
    /// The shards of a file before the first step: each has the keys that live there, which have no
    /// version yet. An `Err` is want of memory.
    pub fn new(alloc: Global, config: &Config) -> Result<TxnWorld, AllocError>
        requires keys { length config.now.homes < 2 ^ 16 }
        requires shards { length config.now.shard_services ≤ 16 }
        ensures { IfOk result (λ w. shards_in w ≡ shards_from config.now 1 config.now.shard_services) }
    {
        let mut shards = Vec::new(alloc);
        add_shards(alloc, &mut shards, config)?;
        Ok(TxnWorld { shards })
    }

    /// Makes room for all that a shard needs for a request. What the shards keep stays. An `Err` is
    /// want of memory.
    #[tactic(auto, using(crate::proofs::Serving::serving))]
    pub fn make_room(&mut self, shard: ShardId, r: &Request) -> Result<(), AllocError>
        requires here { shard ≤ length self.old }
        ensures same { shards_in self.new ≡ shards_in self.old }
        ensures many { length self.new ≡ length self.old }
        ensures room { OnOk result (has_room (view_in self.new shard) r.now ≡ true) }
    {
        self.shards[place_of(shard)].make_room(r)
    }

    /// A shard serves a request at a reading of the time: the row of the tables, exactly, and no other
    /// shard changes. Takes no memory.
    #[tactic(auto, using(crate::proofs::Serving::serving))]
    pub fn handle(&mut self, shard: ShardId, r: &Request, at: Interval) -> Reply
        requires here { shard ≤ length self.old }
        requires room { has_room (view_in self.old shard) r.now ≡ true }
        requires times { has_small_times r.now ≡ true }
        ensures after { shards_in self.new ≡ served_by (shards_in self.old) shard at.latest r.now }
        ensures many { length self.new ≡ length self.old }
        ensures replies { result ≡ shard_reply (shard_in (shards_in self.old) shard) at.latest r.now }
    {
        self.shards[place_of(shard)].handle(r, at)
    }

    /// The decision that a shard keeps for an attempt, if there is one.
    #[tactic(auto, using(crate::proofs::Serving::serving))]
    pub fn decision(&self, shard: ShardId, attempt: Attempt) -> Option<Outcome>
        requires here { shard ≤ length self.now }
        ensures { result ≡ decision_in (shard_in (shards_in self.now) shard).decisions attempt }
    {
        self.shards[place_of(shard)].decision(attempt)
    }

    /// The time at which an attempt is committed, by the decision that its coordinator keeps; `None`
    /// where it keeps no commit.
    pub fn time_of(&self, coordinator: ShardId, attempt: Attempt) -> Option<u64>
        requires here { coordinator ≤ length self.now }
        ensures { result ≡ time_kept (decision_in (shard_in (shards_in self.now) coordinator).decisions attempt) }
    {
        match self.decision(coordinator, attempt) {
            Some(Outcome::Committed(time)) => Some(time),
            Some(Outcome::Aborted) => None,
            None => None,
        }
    }
}

// The place of a shard.
fn place_of(shard: ShardId) -> usize
    ensures place { result + 1 ≡ shard }
{
    (shard.number() - 1) as usize
}
