//! A replica: what it holds of each register, and how it serves requests.

ghost use Rattle.std.specs.Prelude.{◌≡◌, List, replicate, IfOk};
ghost use Rattle.carstamps.specs.Stamp.{IsAtMost};
ghost use Rattle.rss_names.specs.declared.service.Key.{Key as Register};
ghost use Rattle.rss_tables.specs.ReplicaRow.{opening_cell, held_at, held_reply, dep_cell, accept as accepted, accept_all as all_accepted, replica_reply, replica_after};

use carstamps::Carstamp;
use causal_context::Dep;
use rss_names::Key;
use rss_wire::{RegReply, Reply, Request};
use std::alloc::{AllocError, Global};
use std::marker::Model;

/// What a replica holds of a register that was never written.
const OPENING: RegReply = RegReply {
    value: 0,
    stamp: Carstamp::ZERO,
    writer: 0,
};

/// A replica of a register service: of each register it holds the value with the greatest stamp that
/// it was told. Contracts see the list of what it holds, by the registers' indices.
#[derive(Drop)]
pub struct Replica {
    cells: Vec<RegReply>,
}

impl Model for Replica {
    ghost use Rattle.std.specs.Prelude.{List};
    ghost use Rattle.rss_wire.specs.declared.messages.RegReply.{RegReply};

    ghost Value = { List RegReply };

    ghost view = { λ r. r.cells.items };
}

impl Replica {
    /// A replica of this many registers, of which none was written.
    pub fn new(alloc: Global, registers: u16) -> Result<Replica, AllocError>
        ensures { IfOk result (λ r. r ≡ replicate registers opening_cell) }
    {
        Ok(Replica {
            cells: vec![in alloc; OPENING; registers as usize]?,
        })
    }

    /// What is held of a register: as of one that was never written where the replica has none of
    /// its index.
    pub fn cell(&self, key: Key) -> RegReply
        ensures { result ≡ held_at self.now key }
    {
        match self.cells.get(key.index as usize) {
            Some(cell) => *cell,
            None => OPENING,
        }
    }

    /// The stamp of the value that is held of a register.
    pub fn stamp(&self, key: Key) -> Carstamp
        ensures { result ≡ (held_at self.now key).stamp }
    {
        let cell = self.cell(key);
        cell.stamp
    }

    /// Serves a request: stores what it names where its stamp is greater than the held one, and shows
    /// what is held. A request of a shard is answered by `Done` and changes nothing. Takes no memory.
    #[tactic(auto, using(crate::proofs::StampsRise::rises), unfolding(rss_tables::specs::ReplicaRow::replica_reply, rss_tables::specs::ReplicaRow::replica_after))]
    pub fn handle(&mut self, r: &Request) -> Reply
        ensures replies { result ≡ replica_reply self.old r.now }
        ensures accepts { self.new ≡ replica_after self.old r.now }
        ensures never_falls { (k : Register) →
            IsAtMost (held_at self.old k).stamp (held_at self.new k).stamp }
    {
        match r {
            Request::Fix { deps } => {
                self.accept_all(deps.as_slice());
                Reply::Fixed
            }
            Request::Ask { key } => self.held(*key),
            Request::Stamp { key } => self.held(*key),
            Request::Store {
                key,
                value,
                stamp,
                writer,
            } => {
                let cell = RegReply {
                    value: *value,
                    stamp: *stamp,
                    writer: *writer,
                };
                self.accept(*key, cell);
                Reply::Stored
            }
            Request::Lock { .. }
            | Request::Prepare { .. }
            | Request::Decide { .. }
            | Request::Commit { .. }
            | Request::Abort { .. }
            | Request::Inquire { .. }
            | Request::Release { .. }
            | Request::Snapshot { .. } => Reply::Done,
        }
    }

    // What is held of a register, as a reply.
    fn held(&self, key: Key) -> Reply
        ensures { result ≡ held_reply (held_at self.now key) }
    {
        let cell = self.cell(key);
        Reply::Held {
            value: cell.value,
            stamp: cell.stamp,
            writer: cell.writer,
        }
    }

    // Replaces what is held of a register where the stamp is greater.
    fn accept(&mut self, key: Key, cell: RegReply)
        ensures { self.new ≡ accepted self.old key cell }
    {
        let at = key.index as usize;
        if at < self.cells.len() && cell.stamp.is_above(self.cells[at].stamp) {
            self.cells[at] = cell;
        }
    }

    // Accepts each dependency in turn.
    fn accept_all(&mut self, deps: &[Dep])
        ensures { self.new ≡ all_accepted self.old deps.now }
    {
        for dep in deps {
            let cell = RegReply {
                value: dep.value,
                stamp: dep.stamp,
                writer: dep.writer,
            };
            self.accept(dep.key, cell);
        }
    }
}
