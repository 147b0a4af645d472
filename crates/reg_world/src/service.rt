//! The replicas of one register service.

ghost use Rattle.std.specs.Prelude.{◌≡◌, ◌-◌, ◌<◌, ◌≤◌, [], List, get_or, set, length, replicate, IfOk};
ghost use Rattle.rss_machine.specs.Marks.{majority_stamp as majority_of};
ghost use Rattle.rss_machine.specs.State.{opening_replicas};
ghost use Rattle.rss_tables.specs.ReplicaRow.{replica_reply, replica_after};

use crate::majority;
use carstamps::Carstamp;
use reg_replica::Replica;
use rss_names::{Key, ReplicaId};
use rss_wire::{Reply, Request};
use std::alloc::{AllocError, Global};
use std::marker::Model;

/// The replicas of a register service. Contracts see what each of them holds of each register.
#[derive(Drop)]
pub struct Service {
    replicas: Vec<Replica>,
}

impl Model for Service {
    ghost use Rattle.std.specs.Prelude.{List};
    ghost use Rattle.rss_wire.specs.declared.messages.RegReply.{RegReply};

    ghost Value = { List (List RegReply) };

    ghost view = { λ s. s.replicas.items };
}

impl Service {
    /// So many replicas, which hold the opening value of so many registers.
    pub fn new(alloc: Global, registers: u16, replicas: u8) -> Result<Service, AllocError>
        ensures { IfOk result (λ s. s ≡ opening_replicas registers replicas) }
    {
        Ok(Service {
            replicas: opening(alloc, registers, replicas)?,
        })
    }

    /// Serves a request at one of the replicas. Where there is none of this number nothing changes,
    /// and the reply is that of a replica that holds no register. Takes no memory.
    pub fn handle(&mut self, replica: ReplicaId, r: &Request) -> Reply
        ensures replies { result ≡ replica_reply (get_or self.old (replica - 1) []) r.now }
        ensures serves { self.new ≡ set self.old (replica - 1) (replica_after (get_or self.old (replica - 1) []) r.now) }
    {
        let place = (replica.number() - 1) as usize;
        if place < self.replicas.len() {
            return self.replicas[place].handle(r);
        }
        reply_of_none(r)
    }

    /// The greatest stamp of a register that a majority of the replicas holds.
    pub fn majority_stamp(&self, key: Key) -> Carstamp
        ensures { result ≡ majority_of self.now key }
    {
        majority::majority_stamp(self.replicas.as_slice(), key)
    }
}

// So many replicas, which hold the opening value of so many registers.
fn opening(alloc: Global, registers: u16, count: u8) -> Result<Vec<Replica>, AllocError>
    ensures { IfOk result (λ v. v.items ≡ opening_replicas registers count) }
{
    let mut replicas = Vec::new(alloc);
    for _replica in 0..count {
        replicas.push(Replica::new(alloc, registers)?)?;
    }
    Ok(replicas)
}

/// The reply of a replica that holds no register.
#[tactic(auto, unfolding(rss_tables::specs::ReplicaRow::replica_reply))]
pub fn reply_of_none(r: &Request) -> Reply
    ensures { result ≡ replica_reply [] r.now }
{
    match r {
        Request::Fix { .. } => Reply::Fixed,
        Request::Ask { .. } | Request::Stamp { .. } => Reply::Held {
            value: 0,
            stamp: Carstamp::ZERO,
            writer: 0,
        },
        Request::Store { .. } => Reply::Stored,
        Request::Lock { .. }
        | Request::Prepare { .. }
        | Request::Decide { .. }
        | Request::Commit { .. }
        | Request::Abort { .. }
        | Request::Inquire { .. }
        | Request::Release { .. }
        | Request::Snapshot { .. } => Reply::Done,
    }
}
