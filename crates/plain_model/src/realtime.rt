//! Which calls must follow a mutation that ended before they began.

ghost use Rattle.std.specs.Prelude.{◌≡◌, false};
ghost use Rattle.std.specs.Option.{option_copied};
ghost use Rattle.plain_model.specs.Orders.{begins_after as begins_behind, has_key as is_key_listed, reads_key as is_read, reads_one_of as reads_some, reads_written as reads_what, meets_writes as meets, follows as must_follow};

use crate::calls::{begins, ends, is_mutation, op_of};
use rss_model::{Entry, Formula, Op};
use rss_names::{CallId, Key};

/// Whether b must follow a for its place in real time: a is a mutation that ended before b began,
/// and b is a mutation too, or reads a key that a writes.
pub(crate) fn follows(h: &[Entry], a: CallId, b: CallId) -> bool
    ensures { result ≡ must_follow h.now a b }
{
    begins_after(h, a, b)
        && is_mutation(h, a)
        && (is_mutation(h, b) || meets_writes(op_of(h, b), op_of(h, a)))
}

// Whether b begins behind the End of a.
fn begins_after(h: &[Entry], a: CallId, b: CallId) -> bool
    ensures { result ≡ begins_behind a b false h.now }
{
    let mut ended = false;
    for entry in h {
        if ended && begins(entry, b) {
            return true;
        }
        ended = ended || ends(entry, a);
    }
    false
}

// Whether one operation reads a key that another one writes.
fn meets_writes(read: Option<&Op>, mutation: Option<&Op>) -> bool
    ensures { result ≡ meets (option_copied read.entry) (option_copied mutation.entry) }
{
    match read {
        Some(read) => match mutation {
            Some(mutation) => reads_written(read, mutation),
            None => false,
        },
        None => false,
    }
}

// Whether an operation reads a key that a mutation writes.
fn reads_written(op: &Op, mutation: &Op) -> bool
    ensures { result ≡ reads_what op.now mutation.now }
{
    match mutation {
        Op::Read(_) | Op::Snap(_) => false,
        Op::Write(key, _) => reads_key(op, *key),
        Op::Txn(_, _, writes) => reads_one_of(op, writes.as_slice()),
    }
}

// Whether an operation reads the key of one of these writes.
fn reads_one_of(op: &Op, writes: &[(Key, Formula)]) -> bool
    ensures { result ≡ reads_some op.now writes.now }
{
    for write in writes {
        if reads_key(op, write.0) {
            return true;
        }
    }
    false
}

// Whether an operation reads a key.
fn reads_key(op: &Op, key: Key) -> bool
    ensures { result ≡ is_read op.now key }
{
    match op {
        Op::Read(read) => *read == key,
        Op::Write(_, _) => false,
        Op::Snap(keys) => has_key(keys.as_slice(), key),
        Op::Txn(keys, _, _) => has_key(keys.as_slice(), key),
    }
}

// Whether a key is in a list.
fn has_key(keys: &[Key], key: Key) -> bool
    ensures { result ≡ is_key_listed keys.now key }
{
    for listed in keys {
        if *listed == key {
            return true;
        }
    }
    false
}
