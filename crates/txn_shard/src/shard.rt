//! The shard.

ghost use Rattle.std.specs.Prelude.{◌≡◌, ◌<◌, ◌^◌, IfOk};
ghost use Rattle.rss_tables.specs.ShardRow.{opening_shard, decision_in};
ghost use Rattle.shard_versions.specs.Rows.{keys_of};

use crate::decisions::decision_of;
use indexmap::{IndexMap, IndexSet};
use rss_names::{Attempt, Key};
use rss_wire::{Holder, Outcome, Skipped, Version};
use shard_locks::LockTable;
use shard_prepared::PreparedTable;
use shard_versions::Versions;
use std::alloc::{AllocError, Global};
use std::marker::Model;

/// One shard of a transaction service: its locks, its prepared writers, the decisions of the attempts
/// that it coordinates, and the versions of its keys. Contracts see the tables' shard, and for how
/// much there is room.
pub struct Shard {
    pub(crate) alloc: Global,
    pub(crate) locks: LockTable,
    pub(crate) prepared: PreparedTable,
    pub(crate) decisions: IndexMap<Attempt, Outcome>,
    pub(crate) store: Versions,
    pub(crate) floor: u64,
    pub(crate) released: IndexSet<Attempt>,
    pub(crate) wounded: Vec<Attempt>,
    pub(crate) shown: Vec<(Key, Version)>,
    pub(crate) writes: Vec<(Key, u64)>,
    pub(crate) blocking: Vec<Holder>,
    pub(crate) skipped: Vec<Skipped>,
}

impl Drop for Shard {
    fn drop(self) {
        let Shard {
            alloc: _alloc,
            locks: _locks,
            prepared: _prepared,
            decisions: _decisions,
            store: _store,
            floor: _floor,
            released: _released,
            wounded: _wounded,
            shown: _shown,
            writes: _writes,
            blocking: _blocking,
            skipped: _skipped,
        } = self;
    }
}

impl Model for Shard {
    ghost use Rattle.std.specs.Prelude.{◌<◌, ◌^◌, vec_capacity};
    ghost use Rattle.indexmap.specs.IndexMap.{spare};
    ghost use Rattle.indexmap.specs.IndexSet.{spare as set_spare};
    ghost use Rattle.txn_shard.specs.ShardView.{ShardView};

    ghost Value = { ShardView };

    ghost view = { λ s. record { shard = record { locks = s.locks.locks; prepared = s.prepared.prepared; decisions = s.decisions.entries; store = s.store.store; floor = s.floor; released = s.released.keys }; room = record { locks = s.locks.room; prepared = s.prepared.room; versions = s.store.rooms; decisions = spare s.decisions; released = set_spare s.released; wounded = vec_capacity s.wounded; shown = vec_capacity s.shown; writes = vec_capacity s.writes; blocking = vec_capacity s.blocking; skipped = vec_capacity s.skipped } } };

    ghost invariant = { λ s. s.floor < 2 ^ 63 };
}

impl Shard {
    /// A shard of these keys that has served nothing yet.
    pub fn new(alloc: Global, keys: &[Key]) -> Result<Shard, AllocError>
        ensures { IfOk result (λ s. s.shard ≡ opening_shard keys.now) }
    {
        Ok(Shard {
            alloc,
            locks: LockTable::new(alloc),
            prepared: PreparedTable::new(alloc),
            decisions: IndexMap::new(alloc),
            store: Versions::new(alloc, keys)?,
            floor: 0,
            released: IndexSet::new(alloc),
            wounded: Vec::new(alloc),
            shown: Vec::new(alloc),
            writes: Vec::new(alloc),
            blocking: Vec::new(alloc),
            skipped: Vec::new(alloc),
        })
    }

    /// The greatest time at which the shard was read or written.
    pub fn floor(&self) -> u64
        ensures same { result ≡ self.now.shard.floor }
        ensures small { result < 2 ^ 63 }
    {
        self.floor
    }

    /// The decision kept for an attempt, if there is one.
    pub fn decision(&self, attempt: Attempt) -> Option<Outcome>
        ensures { result ≡ decision_in self.now.shard.decisions attempt }
    {
        decision_of(&self.decisions, attempt)
    }

    /// Puts the opening state of the same keys back. Takes no memory.
    pub fn reopen(&mut self)
        ensures { self.new.shard ≡ opening_shard (keys_of self.old.shard.store) }
    {
        self.locks.clear();
        self.prepared.clear();
        self.decisions.clear();
        self.store.clear();
        self.floor = 0;
        self.released.clear();
    }
}
