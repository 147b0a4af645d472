//! What a history says of one call.

ghost use Rattle.std.specs.Prelude.{◌≡◌};
ghost use Rattle.std.specs.Option.{option_copied};
ghost use Rattle.plain_model.specs.Found.{found_op, found_reply, failed_by};
ghost use Rattle.rss_model.specs.History.{begins as begins_call, ends as ends_call, has_ended as has_end};
ghost use Rattle.rss_model.specs.Operation.{may_write as writes};
ghost use Rattle.rss_model.specs.Mutation.{is_mutation as mutates};

use crate::formulas::guard_holds;
use rss_model::{Entry, Op, Reply};
use rss_names::CallId;

/// The operation of a call, if it has begun.
pub(crate) fn op_of<'a>(h: &'a [Entry], call: CallId) -> Option<&'a Op>
    ensures { option_copied result ≡ found_op h.now call }
{
    for entry in h {
        if let Entry::Begin(begun, _, op) = entry
            && *begun == call
        {
            return Some(op);
        }
    }
    None
}

/// The reply of a call, if it has ended.
pub fn reply_of<'a>(h: &'a [Entry], call: CallId) -> Option<&'a Reply>
    ensures { option_copied result ≡ found_reply h.now call }
{
    for entry in h {
        if let Entry::End(ended, reply) = entry
            && *ended == call
        {
            return Some(reply);
        }
    }
    None
}

/// Whether an entry begins a call.
pub(crate) fn begins(entry: &Entry, call: CallId) -> bool
    ensures { result ≡ begins_call call entry.now }
{
    match entry {
        Entry::Begin(begun, _, _) => *begun == call,
        _ => false,
    }
}

/// Whether an entry ends a call.
pub(crate) fn ends(entry: &Entry, call: CallId) -> bool
    ensures { result ≡ ends_call call entry.now }
{
    match entry {
        Entry::End(ended, _) => *ended == call,
        _ => false,
    }
}

/// Whether a call is a mutation: a write, or a transaction that has not failed.
#[tactic(auto, using(crate::proofs::FoundLemmas::mutation_found))]
pub(crate) fn is_mutation(h: &[Entry], call: CallId) -> bool
    ensures { result ≡ mutates h.now call }
{
    match op_of(h, call) {
        Some(op) => may_write(op) && !has_failed(op, reply_of(h, call)),
        None => false,
    }
}

// Whether an operation is one that writes.
fn may_write(op: &Op) -> bool
    ensures { result ≡ writes op.now }
{
    match op {
        Op::Write(_, _) | Op::Txn(_, _, _) => true,
        Op::Read(_) | Op::Snap(_) => false,
    }
}

// Whether an operation has ended with a guard that is false over what it was shown.
fn has_failed(op: &Op, reply: Option<&Reply>) -> bool
    ensures { result ≡ failed_by op.now (option_copied reply.entry) }
{
    match reply {
        Some(reply) => !guard_holds(op, reply.as_slice()),
        None => false,
    }
}

/// Whether a call has ended.
#[tactic(auto, unfolding(rss_model::specs::History::has_ended))]
pub(crate) fn has_ended(h: &[Entry], call: CallId) -> bool
    ensures { result ≡ has_end h.now call }
{
    for entry in h {
        if ends(entry, call) {
            return true;
        }
    }
    false
}
