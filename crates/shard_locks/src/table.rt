//! The lock table.

ghost use Rattle.std.specs.Prelude.{◌≡◌, ◌+◌, ◌<◌, ◌≤◌, length, is_some, true, None, Some, OnOk, OnErr, vec_len, vec_capacity};
ghost use Rattle.rss_tables.specs.Locks.{no_locks, after_lock, holds, is_tombstoned, coordinator_in, without_holder, with_tomb, named_holders};
ghost use Rattle.shard_locks.specs.LockView.{has_room, answer_by, wounded_at};
ghost use Rattle.shard_locks.specs.Holders.{holder_of, named_of, has_holder_room};
ghost use Rattle.shard_locks.specs.Settled.{ones_in_way, settled, settled_answer};

use crate::answer::LockAnswer;
use crate::buried::{bury, bury_all, is_buried};
use crate::holders::HolderTable;
use crate::holding::Holding;
use crate::wounding::{filled, list_waiting, list_wounded, remove_all};
use indexmap::IndexSet;
use rss_names::{Attempt, Key, Seq, ShardId};
use rss_wire::Holder;
use std::alloc::{AllocError, Global};
use std::marker::Model;
use std::mem;

/// The locks of a shard: who holds which keys, and the attempts that can hold none any more.
pub struct LockTable {
    alloc: Global,
    holders: HolderTable,
    tombs: IndexSet<Attempt>,
    reads: Vec<Key>,
    writes: Vec<Key>,
    found: Vec<Attempt>,
    waiting: Vec<Holder>,
    room: Option<usize>,
}

impl Drop for LockTable {
    fn drop(self) {
        let LockTable {
            alloc: _alloc,
            holders: _holders,
            tombs: _tombs,
            reads: _reads,
            writes: _writes,
            found: _found,
            waiting: _waiting,
            room: _room,
        } = self;
    }
}

impl Model for LockTable {
    ghost use Rattle.shard_locks.specs.LockView.{LockView};
    ghost use Rattle.shard_locks.specs.Kept.{IsKept};

    ghost Value = { LockView };

    ghost view = { λ t. record { locks = record { holders = t.holders.holders; tombs = t.tombs.keys }; room = t.room } };

    ghost invariant = { IsKept };
}

impl LockTable {
    /// A table in which nobody holds a lock, without room.
    pub fn new(alloc: Global) -> LockTable
        ensures locks { result.locks ≡ no_locks }
        ensures room { result.room ≡ None }
    {
        LockTable {
            alloc,
            holders: HolderTable::new(alloc),
            tombs: IndexSet::new(alloc),
            reads: Vec::new(alloc),
            writes: Vec::new(alloc),
            found: Vec::new(alloc),
            waiting: Vec::new(alloc),
            room: None,
        }
    }

    /// Makes room for one `ask` over at most this many keys, or one `tombstone`. An `Err` is want of
    /// memory.
    pub fn make_room(&mut self, keys: usize) -> Result<(), AllocError>
        ensures same { self.new.locks ≡ self.old.locks }
        ensures room { OnOk result (self.new.room ≡ Some keys) }
        ensures unchanged { OnErr result (self.new.room ≡ self.old.room) }
    {
        self.tombs.reserve(self.holders.len().max(1))?;
        self.reads.reserve(keys)?;
        self.writes.reserve(keys)?;
        self.found.clear();
        self.found.reserve(self.holders.len())?;
        self.waiting.reserve(self.holders.len())?;
        self.holders.make_room(keys)?;
        self.room = Some(keys);
        Ok(())
    }

    /// Asks for the locks of an attempt, where `prepared` are the attempts that can't be wounded. It
    /// wounds the younger holders in its way that are not prepared, and takes its locks where nobody
    /// is in its way then. `wounded` lists those that it wounded, by ascending attempt. Uses up the
    /// room, and takes no memory.
    pub fn ask(
        &mut self,
        attempt: Attempt,
        coordinator: ShardId,
        reads: &[Key],
        writes: &[Key],
        prepared: &[Attempt],
        wounded: &mut Vec<Attempt>,
    ) -> LockAnswer
        requires room { has_room self.old.room (length reads.now + length writes.now) ≡ true }
        requires list { length self.old.locks.holders ≤ vec_capacity wounded.old }
        ensures locks { self.new.locks ≡ after_lock self.old.locks prepared.now (record { attempt = attempt; coordinator = coordinator; reads = reads.now; writes = writes.now }) }
        ensures answers { result ≡ answer_by self.new.locks attempt reads.now writes.now }
        ensures wounded { wounded.new.items ≡ wounded_at self.old.locks prepared.now (record { attempt = attempt; coordinator = coordinator; reads = reads.now; writes = writes.now }) }
        ensures used { self.new.room ≡ None }
    {
        wounded.clear();
        if self.is_tombstoned(attempt) {
            self.room = None;
            return LockAnswer::WoundedSelf;
        }
        if self.holds(attempt) {
            self.room = None;
            return LockAnswer::Granted;
        }
        let reads = filled(mem::replace(&mut self.reads, Vec::new(self.alloc)), reads);
        let writes = filled(mem::replace(&mut self.writes, Vec::new(self.alloc)), writes);
        let new = Holding::new(attempt, coordinator, reads, writes);
        self.found.clear();
        self.holders.list_in_way(&new, &mut self.found);
        list_wounded(self.found.as_slice(), attempt, prepared, wounded);
        remove_all(&mut self.holders, wounded.as_slice());
        bury_all(&mut self.tombs, wounded.as_slice());
        self.room = None;
        let in_way = self.found.as_slice();
        settle(
            self.alloc,
            &mut self.holders,
            in_way,
            &mut self.waiting,
            new,
        )
    }

    /// Whether an attempt holds locks.
    pub fn holds(&self, attempt: Attempt) -> bool
        ensures { result ≡ holds self.now.locks attempt }
    {
        self.holders.find(attempt).is_some()
    }

    /// Whether an attempt can hold no locks any more.
    pub fn is_tombstoned(&self, attempt: Attempt) -> bool
        ensures { result ≡ is_tombstoned self.now.locks attempt }
    {
        is_buried(&self.tombs, attempt)
    }

    /// How many attempts hold locks.
    pub fn holders(&self) -> usize
        ensures { result ≡ length self.now.locks.holders }
    {
        self.holders.len()
    }

    /// The coordinator that an attempt named when it got its locks. None exactly where it holds none.
    pub fn coordinator(&self, attempt: Attempt) -> Option<ShardId>
        ensures { result ≡ coordinator_in self.now.locks.holders attempt }
    {
        match self.holders.find(attempt) {
            Some(holder) => Some(holder.coordinator()),
            None => None,
        }
    }

    /// An attempt gives its locks back. The room stays.
    pub fn release(&mut self, attempt: Attempt)
        ensures released { self.new.locks ≡ without_holder self.old.locks attempt }
        ensures room { self.new.room ≡ self.old.room }
    {
        self.holders.remove(attempt);
    }

    /// An attempt can hold no locks from now on; those that it holds stay. Uses up the room, and takes
    /// no memory.
    pub fn tombstone(&mut self, attempt: Attempt)
        requires room { is_some self.old.room ≡ true }
        ensures tombstoned { self.new.locks ≡ with_tomb self.old.locks attempt }
        ensures used { self.new.room ≡ None }
    {
        bury(&mut self.tombs, attempt);
        self.room = None;
    }

    /// Nobody holds locks and nobody is tombstoned any more. The room is gone. Takes no memory.
    pub fn clear(&mut self)
        ensures locks { self.new.locks ≡ no_locks }
        ensures used { self.new.room ≡ None }
    {
        self.holders.clear();
        self.tombs.clear();
        self.room = None;
    }
}

// The one that asks takes its locks where nobody is in its way, else learns who is. Those that were in
// its way are given.
fn settle(
    alloc: Global,
    holders: &mut HolderTable,
    in_way: &[Attempt],
    waiting: &mut Vec<Holder>,
    new: Holding,
) -> LockAnswer
    requires new { holder_of holders.old.holders new.attempt ≡ None }
    requires in_way { named_of holders.old.holders in_way.now ≡ named_holders (ones_in_way holders.old.holders new) }
    requires empty { vec_len waiting.old ≡ 0 }
    requires room { has_holder_room holders.old.room (length new.reads + length new.writes) ≡ true }
    requires list { length in_way.now ≤ vec_capacity waiting.old }
    ensures taken { holders.new.holders ≡ settled holders.old.holders new }
    ensures answers { result ≡ settled_answer holders.old.holders new }
    ensures empty { vec_len waiting.new ≡ 0 }
{
    list_waiting(holders, in_way, waiting);
    if waiting.is_empty() {
        holders.add(new);
        return LockAnswer::Granted;
    }
    let others = mem::replace(waiting, Vec::new(alloc));
    LockAnswer::Wait(Seq::from_vec(others))
}
