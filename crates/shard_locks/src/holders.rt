//! The table of those who hold locks.

ghost use Rattle.std.specs.Prelude.{◌≡◌, ◌+◌, ◌<◌, ◌≤◌, [], length, true, None, Some, OnOk, OnErr, vec_len, vec_capacity};
ghost use Rattle.std.specs.List.{filter};
ghost use Rattle.std.specs.Option.{option_copied};
ghost use Rattle.rss_tables.specs.Locks.{conflicts as is_in_way, attempts_of, with_holder};
ghost use Rattle.rss_tables.specs.Attempts.{attempt_lt};
ghost use Rattle.attempt_index.specs.Ascending.{ascends};
ghost use Rattle.attempt_index.specs.Entries.{without_entry};
ghost use Rattle.shard_locks.specs.Holders.{attempt_of, holder_of, has_holder_room};

use crate::holding::Holding;
use attempt_index::{KeyAttempt, drop_keys, place_of, put_beside, put_keys, search};
use rss_names::Attempt;
use std::alloc::{AllocError, Global};
use std::marker::Model;

/// Those who hold locks, by ascending attempt, no attempt twice, and for each key that one of them
/// reads or writes the pair of both, by ascending key and attempt.
pub struct HolderTable {
    entries: Vec<Holding>,
    attempts: Vec<Attempt>,
    readers: Vec<KeyAttempt>,
    writers: Vec<KeyAttempt>,
    room: Option<usize>,
}

impl Drop for HolderTable {
    fn drop(self) {
        let HolderTable {
            entries: _entries,
            attempts: _attempts,
            readers: _readers,
            writers: _writers,
            room: _room,
        } = self;
    }
}

impl Model for HolderTable {
    ghost use Rattle.shard_locks.specs.Holders.{HoldersView, AreKept};

    ghost Value = { HoldersView };

    ghost view = { λ t. record { holders = t.entries.items; room = t.room } };

    ghost invariant = { AreKept };
}

impl HolderTable {
    /// A table of nobody, without room.
    pub fn new(alloc: Global) -> HolderTable
        ensures holders { result.holders ≡ [] }
        ensures room { result.room ≡ None }
    {
        HolderTable {
            entries: Vec::new(alloc),
            attempts: Vec::new(alloc),
            readers: Vec::new(alloc),
            writers: Vec::new(alloc),
            room: None,
        }
    }

    /// How many attempts hold locks.
    pub fn len(&self) -> usize
        ensures { result ≡ length self.now.holders }
    {
        self.entries.len()
    }

    /// The holder of an attempt. None exactly where it holds no locks.
    pub fn find(&self, attempt: Attempt) -> Option<&Holding>
        ensures { option_copied result ≡ holder_of self.now.holders attempt }
    {
        match search(self.attempts.as_slice(), &attempt) {
            Ok(place) => Some(&self.entries[place]),
            Err(_) => None,
        }
    }

    /// Makes room for one more with at most this many keys. An `Err` is want of memory.
    pub fn make_room(&mut self, keys: usize) -> Result<(), AllocError>
        ensures same { self.new.holders ≡ self.old.holders }
        ensures room { OnOk result (self.new.room ≡ Some keys) }
        ensures unchanged { OnErr result (self.new.room ≡ self.old.room) }
    {
        self.entries.reserve(1)?;
        self.attempts.reserve(1)?;
        self.readers.reserve(keys)?;
        self.writers.reserve(keys)?;
        self.room = Some(keys);
        Ok(())
    }

    /// Adds an attempt that holds no locks yet. Uses up the room, and takes no memory.
    pub fn add(&mut self, new: Holding)
        requires new { holder_of self.old.holders new.attempt ≡ None }
        requires room { has_holder_room self.old.room (length new.reads + length new.writes) ≡ true }
        ensures added { self.new.holders ≡ with_holder self.old.holders new }
        ensures used { self.new.room ≡ None }
    {
        let attempt = new.attempt();
        let place = place_of(self.attempts.as_slice(), &attempt);
        put_keys(&mut self.readers, attempt, new.reads());
        put_keys(&mut self.writers, attempt, new.writes());
        self.entries.insert(place, new).unwrap();
        self.attempts.insert(place, attempt).unwrap();
        self.room = None;
    }

    /// Takes the holder of an attempt away. The room stays.
    pub fn remove(&mut self, attempt: Attempt)
        ensures left { self.new.holders ≡ without_entry attempt_of self.old.holders attempt }
        ensures room { self.new.room ≡ self.old.room }
    {
        if let Ok(place) = search(self.attempts.as_slice(), &attempt) {
            self.attempts.remove(place);
            let old = self.entries.remove(place);
            drop_keys(&mut self.readers, attempt, old.reads());
            drop_keys(&mut self.writers, attempt, old.writes());
        }
    }

    /// Lists the attempts in the way of one that asks and holds no locks, by ascending attempt. There
    /// is room for all holders.
    pub fn list_in_way(&self, asking: &Holding, found: &mut Vec<Attempt>)
        requires new { holder_of self.now.holders asking.now.attempt ≡ None }
        requires empty { found.old.items ≡ [] }
        requires room { length self.now.holders ≤ vec_capacity found.old }
        ensures found { found.new.items ≡ attempts_of (filter (is_in_way asking.now.attempt asking.now.reads asking.now.writes) self.now.holders) }
        ensures few { length found.new.items ≤ length self.now.holders }
        ensures ascending { ascends attempt_lt (attempts_of self.now.holders) ≡ true }
    {
        put_beside(found, self.writers.as_slice(), asking.writes());
        put_beside(found, self.readers.as_slice(), asking.writes());
        put_beside(found, self.writers.as_slice(), asking.reads());
    }

    /// Nobody holds locks any more. The room is gone. Takes no memory.
    pub fn clear(&mut self)
        ensures holders { self.new.holders ≡ [] }
        ensures used { self.new.room ≡ None }
    {
        self.entries.clear();
        self.attempts.clear();
        self.readers.clear();
        self.writers.clear();
        self.room = None;
    }
}
