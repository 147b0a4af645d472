//! What an owner is about to do, without the lists of its operation.

ghost use Rattle.std.specs.Prelude.{◌≡◌};
ghost use Rattle.rss_machine.specs.Session.{service_of as service_for, first_service, written_service};
ghost use Rattle.owner_turns.specs.Going.{aim_of, aim_of_op as op_aim};

use pipeline_lang::Expr;
use rss_machine::OwnerKind;
use rss_model::Op;
use rss_names::{Key, ServiceId};

/// What an owner is about to do.
#[derive(Clone, Copy)]
pub enum Aim {
    Read(Key),
    Write(Key, u64),
    /// A snapshot of this service.
    Snap(ServiceId),
    /// A transaction of this service.
    Txn(ServiceId),
    Fence,
    Stub,
}

/// What an owner of this kind is about to do.
pub fn aim_by(kind: &OwnerKind) -> Aim
    ensures { result ≡ aim_of kind.now }
{
    match kind {
        OwnerKind::Calling(op) => aim_of_op(op),
        OwnerKind::Fencing => Aim::Fence,
        OwnerKind::Stubbing(_) => Aim::Stub,
    }
}

// What a call is about to do.
fn aim_of_op(op: &Op) -> Aim
    ensures { result ≡ op_aim op.now }
{
    match op {
        Op::Read(key) => Aim::Read(*key),
        Op::Write(key, value) => Aim::Write(*key, *value),
        Op::Snap(keys) => Aim::Snap(first_of(keys.as_slice())),
        Op::Txn(_, _, writes) => Aim::Txn(written_of(writes.as_slice())),
    }
}

// The service of the first of these keys.
#[tactic(auto, using(crate::proofs::Firsts::firsts))]
fn first_of(keys: &[Key]) -> ServiceId
    ensures { result ≡ first_service keys.now }
{
    match keys.get(0) {
        Some(key) => key.service,
        None => ServiceId::Txn(0),
    }
}

// The service of the first key written.
#[tactic(auto, using(crate::proofs::Firsts::firsts))]
fn written_of(writes: &[(Key, Expr<u8>)]) -> ServiceId
    ensures { result ≡ written_service writes.now }
{
    match writes.get(0) {
        Some(write) => write.0.service,
        None => ServiceId::Txn(0),
    }
}
