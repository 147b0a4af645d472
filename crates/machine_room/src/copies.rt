//! What is read and copied where room is made.

ghost use Rattle.std.specs.Prelude.{◌≡◌, ◌==◌, ◌&&◌, not, length, IfOk};
ghost use Rattle.rss_machine.specs.Calls.{fenced_context};
ghost use Rattle.rss_machine.specs.Session.{left_unsettled};
ghost use Rattle.world_laws.specs.Calls.{is_call as is_call_kind, is_stub as is_stub_kind};
ghost use Rattle.world_parts.specs.Halves.{unsettled_in};
ghost use Rattle.world_parts.specs.Parts.{stage_in, owner_in};

use causal_context::Context;
use rss_machine::OwnerKind;
use rss_names::{Attempt, Seq, ShardId, StageId};
use session_stub::Plan;
use std::alloc::{AllocError, Global};
use world_machine::Machine;

/// A copy of what a stage has seen. An `Err` is want of memory.
pub(crate) fn copy_of(machine: &Machine, stage: StageId) -> Result<Context, AllocError>
    ensures { IfOk result (λ copy. copy.seen ≡ (stage_in machine.now.staging.staging stage).context) }
{
    match machine.stage(stage) {
        Some(found) => found.context().try_clone(machine.alloc),
        None => Ok(Context::empty(machine.alloc)),
    }
}

/// What a stage leaves unsettled where it dies now. An `Err` is want of memory.
pub(crate) fn left_of(
    machine: &Machine,
    stage: StageId,
) -> Result<Option<(Attempt, Seq<ShardId>)>, AllocError>
    ensures { IfOk result (λ left. left ≡ unsettled_in machine.now.traffic.traffic (stage_in machine.now.staging.staging stage).owner) }
{
    match machine.owner_of(stage) {
        Some(number) => left_by(machine, number),
        None => Ok(None),
    }
}

// What an owner leaves unsettled.
fn left_by(machine: &Machine, number: u32) -> Result<Option<(Attempt, Seq<ShardId>)>, AllocError>
    ensures { IfOk result (λ left. left ≡ left_unsettled (owner_in machine.now.traffic.traffic number).session) }
{
    match machine.owner(number) {
        Some(owner) => owner.unsettled(machine.alloc),
        None => Ok(None),
    }
}

/// Whether an owner is the stub of a stage.
pub(crate) fn settles(machine: &Machine, number: u32) -> bool
    ensures { result ≡ is_stub_kind (owner_in machine.now.traffic.traffic number).kind }
{
    match machine.owner(number) {
        Some(owner) => is_settling(owner.kind()),
        None => false,
    }
}

/// Whether an owner is a call.
pub(crate) fn calls(machine: &Machine, number: u32) -> bool
    ensures { result ≡ is_call_kind (owner_in machine.now.traffic.traffic number).kind }
{
    match machine.owner(number) {
        Some(owner) => is_calling(owner.kind()),
        None => false,
    }
}

// Whether an owner of this kind is a call.
fn is_calling(kind: &OwnerKind) -> bool
    ensures { result ≡ is_call_kind kind.now }
{
    match kind {
        OwnerKind::Calling(_) => true,
        OwnerKind::Fencing => false,
        OwnerKind::Stubbing(_) => false,
    }
}

// Whether an owner of this kind is the stub of a stage.
fn is_settling(kind: &OwnerKind) -> bool
    ensures { result ≡ is_stub_kind kind.now }
{
    match kind {
        OwnerKind::Calling(_) => false,
        OwnerKind::Fencing => false,
        OwnerKind::Stubbing(_) => true,
    }
}

/// What a stage that has seen `before` has seen behind a fence statement with this copy. An `Err` is
/// want of memory.
#[tactic(auto, using(crate::proofs::Rooming::fenced_is))]
pub(crate) fn behind_fence(
    alloc: Global,
    before: &Context,
    copy: &Context,
) -> Result<Context, AllocError>
    ensures { IfOk result (λ context. context.seen ≡ fenced_context before.now.seen copy.now.seen) }
{
    if used_nothing(alloc, before)? {
        return before.try_clone(alloc);
    }
    let mut context = copy.try_clone(alloc)?;
    context.fenced_outside();
    Ok(context)
}

// Whether a stage that has seen this used nothing last.
#[tactic(auto, using(crate::proofs::Rooming::planned_all))]
fn used_nothing(alloc: Global, before: &Context) -> Result<bool, AllocError>
    ensures { IfOk result (λ nothing. nothing ≡ ((length before.now.seen.last.services == 0) && not before.now.seen.last.outside)) }
{
    let plan = Plan::all(alloc, before)?;
    Ok(plan.is_empty() && !before.last().outside())
}
