//! The table of prepared writers.

ghost use Rattle.std.specs.Prelude.{◌≡◌, ◌+◌, ◌<◌, ◌≤◌, [], length, true, None, Some, OnOk, OnErr, vec_len, vec_capacity};
ghost use Rattle.std.specs.Option.{option_copied};
ghost use Rattle.rss_tables.specs.Prepared.{prepared_of, prepared_attempts, with_prepared, without_prepared, blocking as ones_blocking, passed_by as ones_passed, named_blocking, named_skipped};
ghost use Rattle.shard_prepared.specs.PreparedView.{has_room};

use crate::index::{drop_writes, put_writes};
use crate::sifting::{self, SnapshotRead};
use crate::writer::{PreparedWriter, find_entry};
use attempt_index::{KeyAttempt, place_of, search};
use rss_names::{Attempt, Key};
use rss_wire::{Holder, Skipped};
use std::alloc::{AllocError, Global};
use std::marker::Model;

/// The prepared writers of a shard, by ascending attempt, no attempt twice, and for each key that one
/// of them writes the pair of both, by ascending key and attempt.
pub struct PreparedTable {
    entries: Vec<PreparedWriter>,
    attempts: Vec<Attempt>,
    index: Vec<KeyAttempt>,
    room: Option<usize>,
}

impl Drop for PreparedTable {
    fn drop(self) {
        let PreparedTable {
            entries: _entries,
            attempts: _attempts,
            index: _index,
            room: _room,
        } = self;
    }
}

impl Model for PreparedTable {
    ghost use Rattle.shard_prepared.specs.PreparedView.{PreparedView};
    ghost use Rattle.shard_prepared.specs.Kept.{IsKept};

    ghost Value = { PreparedView };

    ghost view = { λ t. record { prepared = t.entries.items; room = t.room } };

    ghost invariant = { IsKept };
}

impl PreparedTable {
    /// A table in which nobody is prepared, without room.
    pub fn new(alloc: Global) -> PreparedTable
        ensures prepared { result.prepared ≡ [] }
        ensures room { result.room ≡ None }
    {
        PreparedTable {
            entries: Vec::new(alloc),
            attempts: Vec::new(alloc),
            index: Vec::new(alloc),
            room: None,
        }
    }

    /// How many attempts are prepared.
    pub fn len(&self) -> usize
        ensures { result ≡ length self.now.prepared }
    {
        self.entries.len()
    }

    /// The prepared attempts, each once.
    pub fn attempts(&self) -> &[Attempt]
        ensures { result.now ≡ prepared_attempts self.now.prepared }
    {
        self.attempts.as_slice()
    }

    /// Makes room for one more with at most this many writes. An `Err` is want of memory.
    pub fn make_room(&mut self, writes: usize) -> Result<(), AllocError>
        ensures same { self.new.prepared ≡ self.old.prepared }
        ensures room { OnOk result (self.new.room ≡ Some writes) }
        ensures unchanged { OnErr result (self.new.room ≡ self.old.room) }
    {
        self.entries.reserve(1)?;
        self.attempts.reserve(1)?;
        self.index.reserve(writes)?;
        self.room = Some(writes);
        Ok(())
    }

    /// Adds an attempt that is not prepared yet. Uses up the room, and takes no memory.
    pub fn add(&mut self, writer: PreparedWriter)
        requires new { prepared_of self.old.prepared writer.attempt ≡ None }
        requires room { has_room self.old.room (length writer.writes) ≡ true }
        ensures added { self.new.prepared ≡ with_prepared self.old.prepared writer }
        ensures used { self.new.room ≡ None }
    {
        let attempt = writer.attempt();
        let place = place_of(self.attempts.as_slice(), &attempt);
        put_writes(&mut self.index, &writer);
        self.entries.insert(place, writer).unwrap();
        self.attempts.insert(place, attempt).unwrap();
        self.room = None;
    }

    /// The entry of a prepared attempt. None exactly where it is not prepared.
    pub fn get(&self, attempt: Attempt) -> Option<&PreparedWriter>
        ensures { option_copied result ≡ prepared_of self.now.prepared attempt }
    {
        find_entry(self.entries.as_slice(), self.attempts.as_slice(), attempt)
    }

    /// Takes the entry of a prepared attempt away. None exactly where it is not prepared. The room
    /// stays.
    pub fn take(&mut self, attempt: Attempt) -> Option<PreparedWriter>
        ensures taken { result ≡ prepared_of self.old.prepared attempt }
        ensures left { self.new.prepared ≡ without_prepared self.old.prepared attempt }
        ensures room { self.new.room ≡ self.old.room }
    {
        match search(self.attempts.as_slice(), &attempt) {
            Ok(place) => {
                self.attempts.remove(place);
                let writer = self.entries.remove(place);
                drop_writes(&mut self.index, &writer);
                Some(writer)
            }
            Err(_) => None,
        }
    }

    /// Lists the prepared writers of these keys that block a snapshot, and those that it passes by, by
    /// ascending attempt. Both lists have room for all that are prepared; what they held is gone.
    pub fn sift(
        &self,
        keys: &[Key],
        read_time: u64,
        least: u64,
        skip: bool,
        blocking: &mut Vec<Holder>,
        skipped: &mut Vec<Skipped>,
    )
        requires blocking_room { length self.now.prepared ≤ vec_capacity blocking.old }
        requires skipped_room { length self.now.prepared ≤ vec_capacity skipped.old }
        ensures blocking { blocking.new.items ≡ named_blocking (ones_blocking self.now.prepared keys.now read_time least skip) }
        ensures skipped { skipped.new.items ≡ named_skipped (ones_passed self.now.prepared keys.now read_time least skip) }
    {
        blocking.clear();
        skipped.clear();
        let read = SnapshotRead {
            read_time,
            least,
            skip,
        };
        sifting::sift(
            self.entries.as_slice(),
            self.attempts.as_slice(),
            self.index.as_slice(),
            keys,
            read,
            blocking,
            skipped,
        );
    }

    /// Nobody is prepared any more. The room is gone. Takes no memory.
    pub fn clear(&mut self)
        ensures prepared { self.new.prepared ≡ [] }
        ensures used { self.new.room ≡ None }
    {
        self.entries.clear();
        self.attempts.clear();
        self.index.clear();
        self.room = None;
    }
}
