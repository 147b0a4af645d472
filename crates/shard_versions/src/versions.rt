//! The versions of all keys of a shard.

ghost use Rattle.std.specs.Prelude.{◌≡◌, ◌+◌, ◌<◌, ◌≤◌, true, false, IfOk, OnOk, length};
ghost use Rattle.rss_names.specs.Services.{same_key};
ghost use Rattle.rss_names.specs.declared.service.Key.{Key as AnyKey};
ghost use Rattle.rss_tables.specs.Versions.{unwritten, version_at, newest_version, with_version, versions_of};
ghost use Rattle.rss_tables.specs.ShardRow.{written_since};
ghost use Rattle.shard_versions.specs.Rows.{store_of, place_in, keys_of};
ghost use Rattle.shard_versions.specs.StoreView.{has_room};

use crate::row::{OPENING, Row};
use rss_names::{Key, is_same_key};
use rss_wire::Version;
use std::alloc::{AllocError, Global};
use std::marker::Model;

/// The versions of a shard's keys. Contracts see each key with its versions in ascending time, and
/// for which keys there is room for one more version.
pub struct Versions {
    rows: Vec<Row>,
}

impl Drop for Versions {
    fn drop(self) {
        let Versions { rows: _rows } = self;
    }
}

impl Model for Versions {
    ghost use Rattle.shard_versions.specs.Rows.{store_of, rooms_of};
    ghost use Rattle.shard_versions.specs.StoreView.{StoreView};

    ghost Value = { StoreView };

    ghost view = { λ v. record { store = store_of v.rows.items; rooms = rooms_of v.rows.items } };
}

impl Versions {
    /// The versions of these keys, of which none was written.
    pub fn new(alloc: Global, keys: &[Key]) -> Result<Versions, AllocError>
        ensures { IfOk result (λ v. v.store ≡ unwritten keys.now) }
    {
        let mut rows = Vec::with_capacity(alloc, keys.len())?;
        for key in keys {
            rows.push(Row::new(alloc, *key))?;
        }
        Ok(Versions { rows })
    }

    /// The version of a key at a time: the newest one not above it. The opening version where the key
    /// is none of these.
    pub fn at(&self, key: Key, time: u64) -> Version
        ensures { result ≡ version_at self.now.store key time }
    {
        let place = place_of(self.rows.as_slice(), key);
        if place < self.rows.len() {
            return self.rows[place].at(time);
        }
        OPENING
    }

    /// The newest version of a key. The opening version where the key is none of these.
    pub fn newest(&self, key: Key) -> Version
        ensures { result ≡ newest_version self.now.store key }
    {
        let place = place_of(self.rows.as_slice(), key);
        if place < self.rows.len() {
            return self.rows[place].newest();
        }
        OPENING
    }

    /// Makes room for one more version of a key. Room that there is stays. An `Err` is want of memory.
    pub fn make_room(&mut self, key: Key) -> Result<(), AllocError>
        ensures same { self.new.store ≡ self.old.store }
        ensures room { OnOk result (has_room self.new key ≡ true) }
        ensures kept { (k : AnyKey) → has_room self.old k ≡ true → has_room self.new k ≡ true }
    {
        let place = place_of(self.rows.as_slice(), key);
        if place >= self.rows.len() {
            return Ok(());
        }
        self.rows[place].make_room()?;
        Ok(())
    }

    /// Whether a key has a version at a time or later. The opening version does not count.
    pub fn is_written_since(&self, key: Key, time: u64) -> bool
        ensures { result ≡ written_since (versions_of self.now.store key) time }
    {
        let place = place_of(self.rows.as_slice(), key);
        if place < self.rows.len() {
            return self.rows[place].is_written_since(time);
        }
        false
    }

    /// Adds a version of a key that has none at its time or later. Nothing changes where the key is
    /// none of these. Takes no memory, and leaves the room of other keys.
    pub fn push(&mut self, key: Key, version: Version)
        requires room { has_room self.old key ≡ true }
        requires above { written_since (versions_of self.old.store key) version.time ≡ false }
        ensures pushed { self.new.store ≡ with_version self.old.store key version }
        ensures others { (k : AnyKey) → same_key key k ≡ false → has_room self.old k ≡ true → has_room self.new k ≡ true }
    {
        let place = place_of(self.rows.as_slice(), key);
        if place < self.rows.len() {
            self.rows[place].push(version);
        }
    }

    /// The same keys, of which none was written. Takes no memory.
    pub fn clear(&mut self)
        ensures { self.new.store ≡ unwritten (keys_of self.old.store) }
    {
        clear_all(&mut self.rows);
    }
}

// Clears each row.
#[tactic(auto, using(crate::proofs::Cleared::cleared))]
fn clear_all(rows: &mut [Row])
    ensures { store_of rows.new ≡ unwritten (keys_of (store_of rows.old)) }
{
    for place in 0..rows.len() {
        rows[place].clear();
    }
}

// How many rows stand before the first one of a key.
fn place_of(rows: &[Row], key: Key) -> usize
    ensures { result ≡ place_in rows.now key }
{
    for place in 0..rows.len() {
        if is_same_key(rows[place].key(), key) {
            return place;
        }
    }
    rows.len()
}
