//! The versions of one key, in ascending time.

ghost use Rattle.std.specs.Prelude.{◌≡◌, ◌+◌, ◌<◌, ◌≤◌, [], ◌∷◌, ◌++◌, true, false, OnOk, OnErr};
ghost use Rattle.rss_names.specs.Ascending.{Finds};
ghost use Rattle.rss_tables.specs.Versions.{KeyVersions, opening_version, last_upto, last_version};
ghost use Rattle.rss_tables.specs.ShardRow.{written_since};
ghost use Rattle.shard_versions.specs.Rows.{times_of};

use rss_names::{Key, Steps, Times1, last_at_most};
use rss_wire::Version;
use std::alloc::{AllocError, Global};
use std::marker::{Brand, Model};
use std::sync::ledger::{Blank, Ledger};

/// The version that each key has from the beginning.
pub const OPENING: Version = Version {
    value: 0,
    time: 0,
    writer: 0,
};

/// A key with its versions in ascending time.
#[derive(Drop)]
pub struct Row {
    key: Key,
    versions: Vec<Version>,
}

impl Model for Row {
    ghost use Rattle.std.specs.Prelude.{nat_lt, vec_len, vec_capacity};
    ghost use Rattle.rss_names.specs.Ascending.{Ascend};
    ghost use Rattle.shard_versions.specs.Rows.{RowView, times_of};

    ghost Value = { RowView };

    ghost view = { λ r. record { kept = record { key = r.key; versions = r.versions.items }; room = nat_lt (vec_len r.versions) (vec_capacity r.versions) } };

    ghost invariant = { λ r. Ascend (times_of r.versions.items) };
}

impl Times1 for Row {
    ghost use Rattle.shard_versions.specs.Rows.{times_of};

    ghost pairs = { λ r. times_of r.kept.versions };

    fn len(&self) -> usize {
        self.versions.len()
    }

    fn get<L: Ledger>(&self, i: usize, steps: &mut Steps<L>) -> (u64, u32) {
        steps.tick();
        (self.versions[i].time, 0)
    }
}

impl Row {
    /// A key that was never written.
    pub fn new(alloc: Global, key: Key) -> Row
        ensures { result.kept ≡ record { key = key; versions = [] } }
    {
        Row {
            key,
            versions: Vec::new(alloc),
        }
    }

    /// The key.
    pub fn key(&self) -> Key
        ensures { result ≡ self.now.kept.key }
    {
        self.key
    }

    /// The newest version not above a time.
    pub fn at(&self, time: u64) -> Version
        ensures { result ≡ last_upto opening_version time self.now.kept.versions }
    {
        match place_at::<Brand>(self, time, Blank::new(1)) {
            Some(place) => self.versions[place],
            None => OPENING,
        }
    }

    /// The newest version.
    pub fn newest(&self) -> Version
        ensures { result ≡ last_version opening_version self.now.kept.versions }
    {
        match self.versions.last() {
            Some(version) => *version,
            None => OPENING,
        }
    }

    /// Makes room for one more version. An `Err` is want of memory.
    pub fn make_room(&mut self) -> Result<(), AllocError>
        ensures same { self.new.kept ≡ self.old.kept }
        ensures room { OnOk result (self.new.room ≡ true) }
        ensures unchanged { OnErr result (self.new.room ≡ self.old.room) }
    {
        self.versions.reserve(1)
    }

    /// Whether there is a version at a time or later.
    pub fn is_written_since(&self, time: u64) -> bool
        ensures { result ≡ written_since self.now.kept.versions time }
    {
        match self.versions.last() {
            Some(version) => time <= version.time,
            None => false,
        }
    }

    /// Adds a version where there is none at its time or later. Takes no memory.
    pub fn push(&mut self, version: Version)
        requires room { self.old.room ≡ true }
        requires above { written_since self.old.kept.versions version.time ≡ false }
        ensures { self.new.kept ≡ record { key = self.old.kept.key; versions = self.old.kept.versions ++ version ∷ [] } }
    {
        self.versions.push(version).unwrap();
    }

    /// The key was never written. Takes no memory.
    pub fn clear(&mut self)
        ensures { self.new.kept ≡ record { key = self.old.kept.key; versions = [] } }
    {
        self.versions.clear();
    }
}

// The place of the last version not above a time, found by halves.
fn place_at<L: Ledger>(row: &Row, time: u64, blank: Blank) -> Option<usize>
    requires name { blank.name ≡ L.name }
    requires parts { blank.parts ≡ L.parts }
    requires shared { 0 < L.parts }
    ensures { Finds (times_of row.now.kept.versions) (time, 0) result }
{
    if row.versions.is_empty() {
        return None;
    }
    let mut steps = Steps::<L>::start(blank);
    last_at_most(row, (time, 0), &mut steps)
}
