//! The attempts beside keys, each once.

ghost use Rattle.std.specs.Prelude.{◌≡◌, ◌+◌, ◌≤◌, true, length, vec_len, vec_capacity};
ghost use Rattle.rss_tables.specs.Attempts.{attempt_lt};
ghost use Rattle.attempt_index.specs.Ascending.{ascends};
ghost use Rattle.attempt_index.specs.KeyIndex.{key_attempt_lt};
ghost use Rattle.attempt_index.specs.Listing.{with_attempts, with_beside};

use crate::index::{KeyAttempt, find_pairs};
use crate::sorted::put;
use rss_names::{Attempt, Key};

// Puts the attempts of pairs into a list, each once. There is room for them.
fn put_attempts(list: &mut Vec<Attempt>, pairs: &[KeyAttempt])
    requires ascending { ascends attempt_lt list.old.items ≡ true }
    requires room { length (with_attempts list.old.items pairs.now) ≤ vec_capacity list.old }
    ensures put { list.new.items ≡ with_attempts list.old.items pairs.now }
    ensures ascending { ascends attempt_lt list.new.items ≡ true }
    ensures capacity { vec_capacity list.old ≤ vec_capacity list.new }
{
    for pair in pairs {
        put(list, pair.attempt);
    }
}

/// Puts the attempts that stand beside one of these keys into a list, each once. There is room for
/// them.
pub fn put_beside(list: &mut Vec<Attempt>, index: &[KeyAttempt], keys: &[Key])
    requires index { ascends key_attempt_lt index.now ≡ true }
    requires ascending { ascends attempt_lt list.old.items ≡ true }
    requires room { length (with_beside index.now keys.now list.old.items) ≤ vec_capacity list.old }
    ensures put { list.new.items ≡ with_beside index.now keys.now list.old.items }
    ensures ascending { ascends attempt_lt list.new.items ≡ true }
    ensures capacity { vec_capacity list.old ≤ vec_capacity list.new }
{
    for key in keys {
        put_attempts(list, find_pairs(index, *key));
    }
}
