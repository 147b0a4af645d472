//! The attempts that stand beside keys, by ascending key and attempt.

ghost use Rattle.std.specs.Prelude.{◌≡◌, ◌+◌, ◌≤◌, not, true, length, vec_len, vec_capacity};
ghost use Rattle.attempt_index.specs.declared.index.KeyAttempt.{KeyAttempt};
ghost use Rattle.attempt_index.specs.Ascending.{ascends, front};
ghost use Rattle.attempt_index.specs.KeyIndex.{key_lt, key_attempt_lt, pairs_of, with_keys, without_keys};

use crate::orders::is_key_before;
use crate::sorted::{drop_item, put};
use rss_names::{Attempt, Key};

/// A key, and an attempt beside it.
#[derive(Clone, Copy)]
pub struct KeyAttempt {
    pub key: Key,
    pub attempt: Attempt,
}

// How many pairs stand before those of a key.
fn count_before(index: &[KeyAttempt], key: Key) -> usize
    requires ascending { ascends key_attempt_lt index.now ≡ true }
    ensures same { result ≡ front (λ (p : KeyAttempt). key_lt p.key key) index.now }
    ensures within { result ≤ length index.now }
{
    index.partition_point(|pair| is_key_before(pair.key, key))
}

// How many pairs stand before those of later keys.
fn count_upto(index: &[KeyAttempt], key: Key) -> usize
    requires ascending { ascends key_attempt_lt index.now ≡ true }
    ensures same { result ≡ front (λ (p : KeyAttempt). not (key_lt key p.key)) index.now }
    ensures within { result ≤ length index.now }
{
    index.partition_point(|pair| !is_key_before(key, pair.key))
}

/// The pairs of a key.
pub fn find_pairs(index: &[KeyAttempt], key: Key) -> &[KeyAttempt]
    requires ascending { ascends key_attempt_lt index.now ≡ true }
    ensures { result.now ≡ pairs_of index.now key }
{
    &index[count_before(index, key)..count_upto(index, key)]
}

/// Puts an attempt beside keys. There is room for that.
pub fn put_keys(index: &mut Vec<KeyAttempt>, attempt: Attempt, keys: &[Key])
    requires ascending { ascends key_attempt_lt index.old.items ≡ true }
    requires room { vec_len index.old + length keys.now ≤ vec_capacity index.old }
    ensures put { index.new.items ≡ with_keys index.old.items attempt keys.now }
    ensures ascending { ascends key_attempt_lt index.new.items ≡ true }
{
    for key in keys {
        put(index, KeyAttempt { key: *key, attempt });
    }
}

/// Takes an attempt away from keys.
pub fn drop_keys(index: &mut Vec<KeyAttempt>, attempt: Attempt, keys: &[Key])
    requires ascending { ascends key_attempt_lt index.old.items ≡ true }
    ensures left { index.new.items ≡ without_keys index.old.items attempt keys.now }
    ensures ascending { ascends key_attempt_lt index.new.items ≡ true }
    ensures few { vec_len index.new ≤ vec_len index.old }
    ensures capacity { vec_capacity index.old ≤ vec_capacity index.new }
{
    for key in keys {
        drop_item(index, &KeyAttempt { key: *key, attempt });
    }
}
