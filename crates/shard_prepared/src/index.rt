//! The pairs of written keys and the attempts that write them.

ghost use Rattle.std.specs.Prelude.{◌≡◌, ◌+◌, ◌≤◌, true, length, vec_len, vec_capacity};
ghost use Rattle.attempt_index.specs.Ascending.{ascends};
ghost use Rattle.attempt_index.specs.KeyIndex.{key_attempt_lt, with_keys, without_keys};
ghost use Rattle.shard_prepared.specs.Written.{written};

use crate::writer::PreparedWriter;
use attempt_index::{KeyAttempt, drop_item, put};

/// Puts an attempt beside each key that it writes. There is room for that.
pub fn put_writes(index: &mut Vec<KeyAttempt>, writer: &PreparedWriter)
    requires ascending { ascends key_attempt_lt index.old.items ≡ true }
    requires room { vec_len index.old + length writer.now.writes ≤ vec_capacity index.old }
    ensures put { index.new.items ≡ with_keys index.old.items writer.now.attempt (written writer.now.writes) }
    ensures ascending { ascends key_attempt_lt index.new.items ≡ true }
{
    let attempt = writer.attempt();
    for write in writer.writes() {
        let pair = KeyAttempt {
            key: write.0,
            attempt,
        };
        put(index, pair);
    }
}

/// Takes an attempt away from each key that it writes.
pub fn drop_writes(index: &mut Vec<KeyAttempt>, writer: &PreparedWriter)
    requires ascending { ascends key_attempt_lt index.old.items ≡ true }
    ensures left { index.new.items ≡ without_keys index.old.items writer.now.attempt (written writer.now.writes) }
    ensures ascending { ascends key_attempt_lt index.new.items ≡ true }
    ensures few { vec_len index.new ≤ vec_len index.old }
    ensures capacity { vec_capacity index.old ≤ vec_capacity index.new }
{
    let attempt = writer.attempt();
    for write in writer.writes() {
        let pair = KeyAttempt {
            key: write.0,
            attempt,
        };
        drop_item(index, &pair);
    }
}
