//! Which prepared writers a snapshot waits for, and which it passes by.

ghost use Rattle.std.specs.Prelude.{◌≡◌, ◌+◌, ◌≤◌, [], true, Some, length, vec_len, vec_capacity};
ghost use Rattle.rss_tables.specs.Attempts.{attempt_lt};
ghost use Rattle.rss_tables.specs.Prepared.{prepared_attempts, must_wait_for as must_wait};
ghost use Rattle.attempt_index.specs.Ascending.{ascends};
ghost use Rattle.attempt_index.specs.KeyIndex.{key_attempt_lt};
ghost use Rattle.attempt_index.specs.Orders.{holder_lt, skipped_lt};
ghost use Rattle.attempt_index.specs.Listing.{listed_one, listed_pairs, listed_keys};
ghost use Rattle.shard_prepared.specs.Written.{attempt_of};
ghost use Rattle.shard_prepared.specs.Sifted.{holder_of, skipped_of, blocks, is_passed};

use crate::writer::{PreparedWriter, find_entry};
use attempt_index::{KeyAttempt, find_pairs, put};
use rss_names::{Attempt, Key};
use rss_wire::{Holder, Skipped};

/// The time at which a snapshot reads, a time that it has seen, and whether it may pass writers by.
#[derive(Clone, Copy)]
pub struct SnapshotRead {
    pub read_time: u64,
    pub least: u64,
    pub skip: bool,
}

// Whether a reader must wait for a prepared writer: its call may have ended, or the reader may have
// seen it.
fn must_wait_for(read: SnapshotRead, writer: &PreparedWriter) -> bool
    ensures { result ≡ must_wait read.read_time read.least read.skip writer.now }
{
    !read.skip || writer.prepare_time() <= read.least || writer.earliest_end() <= read.read_time
}

// Whether a snapshot that asks about a key of this writer must wait for it.
fn is_in_way(read: SnapshotRead, writer: &PreparedWriter) -> bool
    ensures { result ≡ blocks read writer.now }
{
    writer.prepare_time() <= read.read_time && must_wait_for(read, writer)
}

// Whether it passes the writer by.
fn is_passed_by(read: SnapshotRead, writer: &PreparedWriter) -> bool
    ensures { result ≡ is_passed read writer.now }
{
    writer.prepare_time() <= read.read_time && !must_wait_for(read, writer)
}

// Lists a writer, once, where a snapshot must wait for it.
fn list_blocking(writer: &PreparedWriter, read: SnapshotRead, blocking: &mut Vec<Holder>)
    requires ascending { ascends holder_lt blocking.old.items ≡ true }
    requires room { length (listed_one holder_lt holder_of (blocks read) (Some writer.now) blocking.old.items) ≤ vec_capacity blocking.old }
    ensures listed { blocking.new.items ≡ listed_one holder_lt holder_of (blocks read) (Some writer.now) blocking.old.items }
    ensures ascending { ascends holder_lt blocking.new.items ≡ true }
    ensures room { vec_capacity blocking.old ≤ vec_capacity blocking.new }
{
    if is_in_way(read, writer) {
        let held = Holder {
            attempt: writer.attempt(),
            coordinator: writer.coordinator(),
        };
        put(blocking, held);
    }
}

// Lists a writer, once, where a snapshot passes it by.
fn list_skipped(writer: &PreparedWriter, read: SnapshotRead, skipped: &mut Vec<Skipped>)
    requires ascending { ascends skipped_lt skipped.old.items ≡ true }
    requires room { length (listed_one skipped_lt skipped_of (is_passed read) (Some writer.now) skipped.old.items) ≤ vec_capacity skipped.old }
    ensures listed { skipped.new.items ≡ listed_one skipped_lt skipped_of (is_passed read) (Some writer.now) skipped.old.items }
    ensures ascending { ascends skipped_lt skipped.new.items ≡ true }
    ensures room { vec_capacity skipped.old ≤ vec_capacity skipped.new }
{
    if is_passed_by(read, writer) {
        let held = Skipped {
            attempt: writer.attempt(),
            coordinator: writer.coordinator(),
            prepare_time: writer.prepare_time(),
        };
        put(skipped, held);
    }
}

// Lists the writers of pairs, each once, where a snapshot must wait for them or passes them by.
fn list_writers(
    entries: &[PreparedWriter],
    attempts: &[Attempt],
    writers: &[KeyAttempt],
    read: SnapshotRead,
    blocking: &mut Vec<Holder>,
    skipped: &mut Vec<Skipped>,
)
    requires attempts { attempts.now ≡ prepared_attempts entries.now }
    requires ascending { ascends attempt_lt attempts.now ≡ true }
    requires blocking_ascends { ascends holder_lt blocking.old.items ≡ true }
    requires skipped_ascends { ascends skipped_lt skipped.old.items ≡ true }
    requires blocking_room { length (listed_pairs attempt_of holder_lt holder_of (blocks read) entries.now writers.now blocking.old.items) ≤ vec_capacity blocking.old }
    requires skipped_room { length (listed_pairs attempt_of skipped_lt skipped_of (is_passed read) entries.now writers.now skipped.old.items) ≤ vec_capacity skipped.old }
    ensures blocking { blocking.new.items ≡ listed_pairs attempt_of holder_lt holder_of (blocks read) entries.now writers.now blocking.old.items }
    ensures skipped { skipped.new.items ≡ listed_pairs attempt_of skipped_lt skipped_of (is_passed read) entries.now writers.now skipped.old.items }
    ensures blocking_ascends { ascends holder_lt blocking.new.items ≡ true }
    ensures skipped_ascends { ascends skipped_lt skipped.new.items ≡ true }
    ensures blocking_room { vec_capacity blocking.old ≤ vec_capacity blocking.new }
    ensures skipped_room { vec_capacity skipped.old ≤ vec_capacity skipped.new }
{
    for writer in writers {
        if let Some(entry) = find_entry(entries, attempts, writer.attempt) {
            list_blocking(entry, read, blocking);
            list_skipped(entry, read, skipped);
        }
    }
}

/// Lists the prepared writers of these keys that block a snapshot, and those that it passes by, each
/// once and by ascending attempt. Both lists have room for them.
pub fn sift(
    entries: &[PreparedWriter],
    attempts: &[Attempt],
    index: &[KeyAttempt],
    keys: &[Key],
    read: SnapshotRead,
    blocking: &mut Vec<Holder>,
    skipped: &mut Vec<Skipped>,
)
    requires attempts { attempts.now ≡ prepared_attempts entries.now }
    requires ascending { ascends attempt_lt attempts.now ≡ true }
    requires index_ascends { ascends key_attempt_lt index.now ≡ true }
    requires no_blocking { blocking.old.items ≡ [] }
    requires no_skipped { skipped.old.items ≡ [] }
    requires blocking_room { length (listed_keys attempt_of holder_lt holder_of (blocks read) entries.now index.now keys.now []) ≤ vec_capacity blocking.old }
    requires skipped_room { length (listed_keys attempt_of skipped_lt skipped_of (is_passed read) entries.now index.now keys.now []) ≤ vec_capacity skipped.old }
    ensures blocking { blocking.new.items ≡ listed_keys attempt_of holder_lt holder_of (blocks read) entries.now index.now keys.now [] }
    ensures skipped { skipped.new.items ≡ listed_keys attempt_of skipped_lt skipped_of (is_passed read) entries.now index.now keys.now [] }
{
    for key in keys {
        let writers = find_pairs(index, *key);
        list_writers(entries, attempts, writers, read, blocking, skipped);
    }
}
