//! Shards and replicas together.

ghost use Rattle.std.specs.Prelude.{◌≡◌, ◌≤◌, ◌<◌, ◌^◌, true, length, is_some, IfOk, OnOk};
ghost use Rattle.rss_machine.specs.Marks.{first_mark};
ghost use Rattle.rss_machine.specs.State.{start};
ghost use Rattle.rss_tables.specs.ReplicaRow.{replica_reply};
ghost use Rattle.rss_tables.specs.ShardRow.{shard_reply};
ghost use Rattle.reg_world.specs.Rows.{has_room_for};
ghost use Rattle.reg_world.specs.Served.{cells_in, marks_in, served_by as replicas_served, noted_after};
ghost use Rattle.txn_shard.specs.ShardView.{has_room, has_small_times};
ghost use Rattle.txn_world.specs.Shards.{shard_in, view_in, served_by as shards_served, time_kept};
ghost use Rattle.world_parts.specs.Parts.{stores_of, in_stores};
ghost use Rattle.world_stores.specs.Serving.{serves, reply_at, decision_at};
ghost use Rattle.world_stores.specs.StoresView.{is_ready_for, is_timely, IsThere};

use carstamps::Carstamp;
use pipeline_lang::Config;
use reg_world::RegWorld;
use rss_names::{Attempt, Key, ReplicaId, ServiceId, ShardId, Target};
use rss_wire::{Holder, Outcome, Reply, Request};
use std::alloc::{AllocError, Global};
use std::marker::Model;
use truetime::Interval;
use txn_world::TxnWorld;

/// All that serves requests: the shards of transaction services, the replicas of register services,
/// and the notes of when a majority first held what. Contracts see them as the machine's state has
/// them, and for which request there is room.
pub struct Stores {
    txn: TxnWorld,
    registers: RegWorld,
}

impl Drop for Stores {
    fn drop(self) {
        let Stores {
            txn: _txn,
            registers: _registers,
        } = self;
    }
}

impl Model for Stores {
    ghost use Rattle.txn_world.specs.Shards.{shards_in};
    ghost use Rattle.world_stores.specs.StoresView.{StoresView};

    ghost Value = { StoresView };

    ghost view = { λ s. record { stores = record { shards = shards_in s.txn; replicas = s.registers.replicas; marks = s.registers.marks }; room = record { shards = s.txn; registers = s.registers.rooms } } };
}

impl Stores {
    /// Shards and replicas of a file before the first step. An `Err` is want of memory.
    pub fn new(alloc: Global, config: &Config) -> Result<Stores, AllocError>
        requires keys { length config.now.homes < 2 ^ 16 }
        requires shards { length config.now.shard_services ≤ 16 }
        ensures { IfOk result (λ s. s.stores ≡ stores_of (start config.now)) }
    {
        let txn = TxnWorld::new(alloc, config)?;
        let registers = RegWorld::new(alloc, config)?;
        Ok(Stores { txn, registers })
    }

    /// Makes room for all that a request needs where it is served. No other shard or register is
    /// looked at. An `Err` is want of memory; nothing but room has changed then.
    #[tactic(auto, unfolding(crate::specs::StoresView::is_ready_for))]
    pub fn make_room(&mut self, target: Target, r: &Request) -> Result<(), AllocError>
        requires here { IsThere self.old.stores.shards target }
        ensures same { self.new.stores ≡ self.old.stores }
        ensures room { OnOk result (is_ready_for self.new target r.now ≡ true) }
    {
        match target {
            Target::Shard(shard) => self.make_shard_room(shard, r),
            Target::Replica(_, _) => self.make_register_room(r),
        }
    }

    // Makes room at a shard.
    #[tactic(auto, using(crate::proofs::Serving::counting))]
    fn make_shard_room(&mut self, shard: ShardId, r: &Request) -> Result<(), AllocError>
        requires here { shard ≤ length self.old.stores.shards }
        ensures same { self.new.stores ≡ self.old.stores }
        ensures room { OnOk result (has_room (view_in self.new.room.shards shard) r.now ≡ true) }
    {
        self.txn.make_room(shard, r)
    }

    // Makes room for the notes of a request.
    fn make_register_room(&mut self, r: &Request) -> Result<(), AllocError>
        ensures same { self.new.stores ≡ self.old.stores }
        ensures room { OnOk result (has_room_for self.new.room.registers r.now ≡ true) }
    {
        self.registers.make_room_for(r)
    }

    /// A request is served at its target, in the step of this number and at its reading: the
    /// machine's own move, exactly. At a replica it is noted what a majority then holds. Gives the
    /// reply. Takes no memory.
    #[tactic(auto, unfolding(crate::specs::StoresView::is_ready_for))]
    pub fn serve(&mut self, target: Target, r: &Request, at: Interval, step: u32) -> Reply
        requires here { IsThere self.old.stores.shards target }
        requires room { is_ready_for self.old target r.now ≡ true }
        requires times { is_timely target r.now ≡ true }
        ensures serves { self.new.stores ≡ in_stores step (serves target at.latest r.now) self.old.stores }
        ensures replies { result ≡ reply_at self.old.stores target at.latest r.now }
    {
        match target {
            Target::Shard(shard) => self.serve_shard(shard, r, at),
            Target::Replica(service, replica) => self.serve_replica(service, replica, r, step),
        }
    }

    // A shard serves a request.
    #[tactic(auto, using(crate::proofs::Serving::counting))]
    fn serve_shard(&mut self, shard: ShardId, r: &Request, at: Interval) -> Reply
        requires here { shard ≤ length self.old.stores.shards }
        requires room { has_room (view_in self.old.room.shards shard) r.now ≡ true }
        requires times { has_small_times r.now ≡ true }
        ensures serves { self.new.stores ≡ record self.old.stores { shards = shards_served self.old.stores.shards shard at.latest r.now } }
        ensures replies { result ≡ shard_reply (shard_in self.old.stores.shards shard) at.latest r.now }
    {
        self.txn.handle(shard, r, at)
    }

    // A replica serves a request, and what a majority then holds is noted.
    fn serve_replica(
        &mut self,
        service: ServiceId,
        replica: ReplicaId,
        r: &Request,
        step: u32,
    ) -> Reply
        requires room { has_room_for self.old.room.registers r.now ≡ true }
        ensures serves { self.new.stores ≡ record self.old.stores {
          replicas = replicas_served self.old.stores.replicas service replica r.now;
          marks = noted_after (replicas_served self.old.stores.replicas service replica r.now) service step r.now self.old.stores.marks;
        } }
        ensures replies { result ≡ replica_reply (cells_in self.old.stores.replicas service replica) r.now }
    {
        self.registers.serve(service, replica, r, step)
    }

    /// The decision that a shard keeps for an attempt, if there is one.
    #[tactic(auto, using(crate::proofs::Serving::counting))]
    pub fn decision(&self, shard: ShardId, attempt: Attempt) -> Option<Outcome>
        requires here { shard ≤ length self.now.stores.shards }
        ensures { result ≡ decision_at self.now.stores shard attempt }
    {
        self.txn.decision(shard, attempt)
    }

    /// Whether the shard that coordinates an attempt keeps a decision for it.
    pub fn is_decided(&self, holder: &Holder) -> bool
        requires here { holder.now.coordinator ≤ length self.now.stores.shards }
        ensures { result ≡ is_some (decision_at self.now.stores holder.now.coordinator holder.now.attempt) }
    {
        self.decision(holder.coordinator, holder.attempt).is_some()
    }

    /// The time at which an attempt is committed, by the decision that its coordinator keeps; `None`
    /// where it keeps no commit.
    #[tactic(auto, using(crate::proofs::Serving::counting))]
    pub fn time_of(&self, coordinator: ShardId, attempt: Attempt) -> Option<u64>
        requires here { coordinator ≤ length self.now.stores.shards }
        ensures { result ≡ time_kept (decision_at self.now.stores coordinator attempt) }
    {
        self.txn.time_of(coordinator, attempt)
    }

    /// The step in which a majority of a register's replicas first held this stamp or a greater one,
    /// as noted, and `None` where nothing says so. Found by halves.
    pub fn majority_step(&self, key: Key, stamp: Carstamp) -> Option<u32>
        ensures { result ≡ first_mark (marks_in self.now.stores.marks key) stamp }
    {
        self.registers.majority_step(key, stamp)
    }
}
