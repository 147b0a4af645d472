//! Prepared attempts.

ghost use Rattle.std.specs.Prelude.{◌≡◌, true};
ghost use Rattle.std.specs.Option.{option_copied};
ghost use Rattle.rss_tables.specs.Attempts.{attempt_lt};
ghost use Rattle.rss_tables.specs.Prepared.{prepared_attempts};
ghost use Rattle.attempt_index.specs.Entries.{entry_of};
ghost use Rattle.shard_prepared.specs.Written.{attempt_of};
ghost use Rattle.attempt_index.specs.Ascending.{ascends};

use attempt_index::search;
use rss_names::{Attempt, Key, Seq, ShardId};
use std::marker::Model;

/// A prepared attempt: its coordinator, its prepare time, the time before which its call can't end,
/// and what it writes at this shard.
#[derive(Drop)]
pub struct PreparedWriter {
    attempt: Attempt,
    coordinator: ShardId,
    prepare_time: u64,
    earliest_end: u64,
    writes: Seq<(Key, u64)>,
}

impl Model for PreparedWriter {
    ghost use Rattle.rss_tables.specs.Prepared.{PreparedWriter as WriterRow};

    ghost Value = { WriterRow };

    ghost view = { λ p. record { attempt = p.attempt; coordinator = p.coordinator; prepare_time = p.prepare_time; earliest_end = p.earliest_end; writes = p.writes } };
}

impl PreparedWriter {
    /// A prepared attempt of these parts.
    pub fn new(
        attempt: Attempt,
        coordinator: ShardId,
        prepare_time: u64,
        earliest_end: u64,
        writes: Seq<(Key, u64)>,
    ) -> PreparedWriter
        ensures { result ≡ record { attempt = attempt; coordinator = coordinator; prepare_time = prepare_time; earliest_end = earliest_end; writes = writes } }
    {
        PreparedWriter {
            attempt,
            coordinator,
            prepare_time,
            earliest_end,
            writes,
        }
    }

    /// The attempt.
    pub fn attempt(&self) -> Attempt
        ensures { result ≡ self.now.attempt }
    {
        self.attempt
    }

    /// Its coordinator.
    pub fn coordinator(&self) -> ShardId
        ensures { result ≡ self.now.coordinator }
    {
        self.coordinator
    }

    /// The time at which it was prepared.
    pub fn prepare_time(&self) -> u64
        ensures { result ≡ self.now.prepare_time }
    {
        self.prepare_time
    }

    /// The time before which its call can't end.
    pub fn earliest_end(&self) -> u64
        ensures { result ≡ self.now.earliest_end }
    {
        self.earliest_end
    }

    /// What it writes.
    pub fn writes(&self) -> &[(Key, u64)]
        ensures { result.now ≡ self.now.writes }
    {
        self.writes.as_slice()
    }
}

/// The entry of a prepared attempt, found by halves among the attempts. None exactly where it is not
/// prepared.
pub fn find_entry<'a>(
    entries: &'a [PreparedWriter],
    attempts: &[Attempt],
    attempt: Attempt,
) -> Option<&'a PreparedWriter>
    requires attempts { attempts.now ≡ prepared_attempts entries.now }
    requires ascending { ascends attempt_lt attempts.now ≡ true }
    ensures { option_copied result ≡ entry_of attempt_of entries.now attempt }
{
    match search(attempts, &attempt) {
        Ok(place) => Some(&entries[place]),
        Err(_) => None,
    }
}
