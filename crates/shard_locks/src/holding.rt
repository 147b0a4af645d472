//! One attempt that holds locks.

ghost use Rattle.std.specs.Prelude.{◌≡◌};

use rss_names::{Attempt, Key, ShardId};
use std::marker::Model;

/// An attempt that holds locks, or asks for them: its coordinator, and the keys that it reads and
/// writes at this shard.
#[derive(Drop)]
pub struct Holding {
    attempt: Attempt,
    coordinator: ShardId,
    reads: Vec<Key>,
    writes: Vec<Key>,
}

impl Model for Holding {
    ghost use Rattle.rss_tables.specs.Locks.{LockHolder};

    ghost Value = { LockHolder };

    ghost view = { λ h. record { attempt = h.attempt; coordinator = h.coordinator; reads = h.reads.items; writes = h.writes.items } };
}

impl Holding {
    /// An attempt with its coordinator and keys.
    pub fn new(attempt: Attempt, coordinator: ShardId, reads: Vec<Key>, writes: Vec<Key>) -> Holding
        ensures { result ≡ record { attempt = attempt; coordinator = coordinator; reads = reads.items; writes = writes.items } }
    {
        Holding {
            attempt,
            coordinator,
            reads,
            writes,
        }
    }

    /// The attempt.
    pub fn attempt(&self) -> Attempt
        ensures { result ≡ self.now.attempt }
    {
        self.attempt
    }

    /// Its coordinator.
    pub fn coordinator(&self) -> ShardId
        ensures { result ≡ self.now.coordinator }
    {
        self.coordinator
    }

    /// The keys that it reads.
    pub fn reads(&self) -> &[Key]
        ensures { result.now ≡ self.now.reads }
    {
        self.reads.as_slice()
    }

    /// The keys that it writes.
    pub fn writes(&self) -> &[Key]
        ensures { result.now ≡ self.now.writes }
    {
        self.writes.as_slice()
    }
}
