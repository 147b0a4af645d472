//! What the sessions of transactions and snapshots are told of their owner's call.

ghost use Rattle.std.specs.Prelude.{◌≡◌, ◌<◌, ◌^◌};
ghost use Rattle.rss_machine.specs.declared.session.OwnerKind.TheVariants.{Calling};
ghost use Rattle.owner_sessions.specs.Parts.{TellsTxn, TellsSnap};

use pipeline_lang::{Compare, Expr};
use rss_machine::OwnerKind;
use rss_model::Op;
use rss_names::Key;
use snapshot_reads::Snap;
use two_phase::Txn;

/// The call of a session: its number, the least time in its context, and how far ahead its stage may
/// end, in microseconds.
#[derive(Clone, Copy)]
pub struct Called {
    pub call: u32,
    pub least: u64,
    pub margin: u32,
}

/// The transaction of an owner; of another operation one that reads and writes nothing.
pub fn txn(kind: &OwnerKind, called: Called) -> Txn<'_>
    ensures { TellsTxn result kind.now called }
{
    match kind {
        OwnerKind::Calling(op) => txn_of_op(op, called),
        OwnerKind::Fencing => whole_txn(called, &[], None, &[]),
        OwnerKind::Stubbing(_) => whole_txn(called, &[], None, &[]),
    }
}

// The transaction of an operation.
fn txn_of_op(op: &Op, called: Called) -> Txn<'_>
    ensures { TellsTxn result (Calling op.now) called }
{
    match op {
        Op::Txn(reads, guard, writes) => whole_txn(
            called,
            reads.as_slice(),
            *guard,
            writes.as_slice(),
        ),
        Op::Read(_) => whole_txn(called, &[], None, &[]),
        Op::Write(_, _) => whole_txn(called, &[], None, &[]),
        Op::Snap(_) => whole_txn(called, &[], None, &[]),
    }
}

// A transaction of its parts.
fn whole_txn<'a>(
    called: Called,
    reads: &'a [Key],
    guard: Option<Compare<u8>>,
    writes: &'a [(Key, Expr<u8>)],
) -> Txn<'a>
    ensures call { result.call ≡ called.call }
    ensures reads { result.reads.now ≡ reads.now }
    ensures guard { result.guard ≡ guard }
    ensures writes { result.writes.now ≡ writes.now }
    ensures least { result.least ≡ called.least }
    ensures margin { result.margin ≡ called.margin }
    ensures small { result.margin < 2 ^ 62 }
{
    Txn {
        call: called.call,
        reads,
        guard,
        writes,
        least: called.least,
        margin: called.margin as u64,
    }
}

/// The snapshot of an owner; of another operation one that reads nothing.
pub fn snap(kind: &OwnerKind, called: Called) -> Snap<'_>
    ensures { TellsSnap result kind.now called }
{
    match kind {
        OwnerKind::Calling(op) => snap_of_op(op, called),
        OwnerKind::Fencing => whole_snap(called, &[]),
        OwnerKind::Stubbing(_) => whole_snap(called, &[]),
    }
}

// The snapshot of an operation.
fn snap_of_op(op: &Op, called: Called) -> Snap<'_>
    ensures { TellsSnap result (Calling op.now) called }
{
    match op {
        Op::Snap(keys) => whole_snap(called, keys.as_slice()),
        Op::Read(_) => whole_snap(called, &[]),
        Op::Write(_, _) => whole_snap(called, &[]),
        Op::Txn(_, _, _) => whole_snap(called, &[]),
    }
}

// A snapshot of its parts.
fn whole_snap<'a>(called: Called, keys: &'a [Key]) -> Snap<'a>
    ensures call { result.call ≡ called.call }
    ensures keys { result.keys.now ≡ keys.now }
    ensures least { result.least ≡ called.least }
{
    Snap {
        call: called.call,
        keys,
        least: called.least,
    }
}
