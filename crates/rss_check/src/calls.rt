//! What a history says of one call, by its index.

ghost use Rattle.std.specs.Prelude.{◌≡◌};
ghost use Rattle.std.specs.Option.{option_copied};
ghost use Rattle.plain_model.specs.Found.{found_op, found_reply, failed_by};
ghost use Rattle.rss_model.specs.Operation.{may_write as writes};
ghost use Rattle.rss_model.specs.Mutation.{is_mutation as mutates};
ghost use Rattle.history_index.specs.Kept.{Indexes};

use history_index::{HistoryIndex, op_at, reply_at};
use plain_model::guard_holds;
use rss_model::{Entry, Op, Reply};
use rss_names::CallId;

/// The operation of a call, if it has begun.
#[tactic(auto, using(crate::proofs::Found::op_found, crate::proofs::Found::op_missing))]
pub fn op_of<'a>(h: &'a [Entry], index: &HistoryIndex, call: CallId) -> Option<&'a Op>
    requires { Indexes h.now index.now }
    ensures { option_copied result ≡ found_op h.now call }
{
    let begun = index.begun(call)?;
    op_at(h, begun.begin)
}

/// The reply of a call, if it has ended.
#[tactic(auto, using(crate::proofs::Found::reply_found, crate::proofs::Found::reply_open, crate::proofs::Found::reply_missing))]
pub fn reply_of<'a>(h: &'a [Entry], index: &HistoryIndex, call: CallId) -> Option<&'a Reply>
    requires { Indexes h.now index.now }
    ensures { option_copied result ≡ found_reply h.now call }
{
    let begun = index.begun(call)?;
    let end = begun.end?;
    reply_at(h, end)
}

/// Whether an operation is one that writes.
fn may_write(op: &Op) -> bool
    ensures { result ≡ writes op.now }
{
    match op {
        Op::Write(_, _) => true,
        Op::Txn(_, _, _) => true,
        Op::Read(_) => false,
        Op::Snap(_) => false,
    }
}

/// Whether an operation has ended with a guard that is false over what it was shown.
fn has_failed(op: &Op, reply: Option<&Reply>) -> bool
    ensures { result ≡ failed_by op.now (option_copied reply.entry) }
{
    match reply {
        Some(reply) => !guard_holds(op, reply.as_slice()),
        None => false,
    }
}

/// Whether a call is a mutation: a write, or a transaction that has not failed.
#[tactic(auto, using(plain_model::proofs::FoundLemmas::mutation_found))]
pub fn is_mutation(h: &[Entry], index: &HistoryIndex, call: CallId) -> bool
    requires { Indexes h.now index.now }
    ensures { result ≡ mutates h.now call }
{
    match op_of(h, index, call) {
        Some(op) => may_write(op) && !has_failed(op, reply_of(h, index, call)),
        None => false,
    }
}
