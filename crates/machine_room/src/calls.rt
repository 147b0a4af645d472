//! Room for calls and fence statements that begin.

ghost use Rattle.std.specs.Prelude.{◌≡◌, ◌+◌, ◌<◌, ◌≤◌, ◌^◌, length, Some, OnOk, IfOk};
ghost use Rattle.owner_turns.specs.Going.{HomesFit};
ghost use Rattle.owner_turns.specs.Whole.{FewReplicas, OpFits};
ghost use Rattle.parts_ready.specs.Few.{AreFew};
ghost use Rattle.rss_machine.specs.Session.{service_of as service_for, first_service, written_service};
ghost use Rattle.rss_machine.specs.declared.session.OwnerKind.TheVariants as kind;
ghost use Rattle.rss_tables.specs.Works.{plan_all, plan_for};
ghost use Rattle.world_machine.specs.Beginning.{CallRoom, FenceStart};
ghost use Rattle.world_parts.specs.Parts.{stage_in};
ghost use Rattle.world_stages.specs.Readies.{IsReady};
ghost use Rattle.world_traffic.specs.View.{IsQuiet};

use crate::copies::{behind_fence, copy_of};
use causal_context::Context;
use pipeline_lang::Expr;
use rss_model::Op;
use rss_names::{Key, ServiceId, StageId};
use session_stub::Plan;
use std::alloc::{AllocError, Global};
use truetime::Interval;
use world_machine::Machine;

/// Makes room for a fence statement of a stage that begins in the next step: its owner and what it
/// leaves its stage where it ends at once. An `Err` is want of memory.
#[tactic(auto, using(crate::proofs::Rooming::fence_made))]
pub(crate) fn make_room_to_fence(
    machine: &mut Machine,
    stage: StageId,
    at: Interval,
) -> Result<(), AllocError>
    requires quiet { IsQuiet machine.old.traffic }
    requires few { AreFew machine.old.staging.staging machine.old.traffic.traffic }
    requires replicas { FewReplicas machine.old.config }
    requires position { (stage_in machine.old.staging.staging stage).cursor.position + 1 < 2 ^ 64 }
    requires steps { machine.old.clock.steps < 200000 }
    ensures room { OnOk result (FenceStart machine.old.config at machine.new.staging machine.new.traffic (machine.old.clock.steps + 1) stage) }
    ensures staging { machine.new.staging.staging ≡ machine.old.staging.staging }
    ensures traffic { machine.new.traffic.traffic ≡ machine.old.traffic.traffic }
    ensures quiet { IsQuiet machine.new.traffic }
    ensures others { machine.new ≡ record machine.old { staging = machine.new.staging; traffic = machine.new.traffic } }
{
    let copy = copy_of(machine, stage)?;
    let plan = fence_plan(machine.alloc, &copy)?;
    let context = behind_fence(machine.alloc, &copy, &copy)?;
    machine.staging.ready_copies(&context, 0, 1)?;
    let step = machine.clock.steps + 1;
    machine
        .traffic
        .prepare_fence(&machine.config, stage, copy, plan, step, at)?;
    Ok(())
}

/// Makes room for a call of a stage that begins in the next step with this operation: its owner and
/// its entry. An `Err` is want of memory.
#[tactic(auto, using(crate::proofs::Rooming::call_made))]
pub(crate) fn make_room_to_call(
    machine: &mut Machine,
    stage: StageId,
    op: Op,
    at: Interval,
) -> Result<(), AllocError>
    requires there { stage ≤ length machine.old.staging.staging.stages }
    requires fits { OpFits op }
    requires homes { HomesFit machine.old.config (kind.Calling op) }
    requires quiet { IsQuiet machine.old.traffic }
    requires few { AreFew machine.old.staging.staging machine.old.traffic.traffic }
    requires replicas { FewReplicas machine.old.config }
    requires steps { machine.old.clock.steps < 200000 }
    ensures made { OnOk result (machine.new.op ≡ Some op) }
    ensures room { OnOk result (CallRoom machine.old.config at machine.new.staging machine.new.traffic (machine.old.clock.steps + 1) stage op) }
    ensures ready { OnOk result (IsReady machine.new.staging 1 (stage_in machine.old.staging.staging stage).context 1) }
    ensures staging { machine.new.staging.staging ≡ machine.old.staging.staging }
    ensures traffic { machine.new.traffic.traffic ≡ machine.old.traffic.traffic }
    ensures quiet { IsQuiet machine.new.traffic }
    ensures others { machine.new ≡ record machine.old { staging = machine.new.staging; traffic = machine.new.traffic; op = machine.new.op } }
{
    let copy = copy_of(machine, stage)?;
    let plan = call_plan(machine.alloc, &copy, service_of(&op))?;
    let twin = op.try_clone(machine.alloc)?;
    machine.staging.ready_own(stage, 1, 1)?;
    let step = machine.clock.steps + 1;
    machine
        .traffic
        .prepare_call(&machine.config, stage, twin, copy, plan, step, at)?;
    machine.op = Some(op);
    Ok(())
}

// The plan of a fence statement of a stage that has seen this: sixteen fences at most.
#[tactic(auto, using(crate::proofs::Rooming::few_all))]
fn fence_plan(alloc: Global, context: &Context) -> Result<Plan, AllocError>
    ensures plan { IfOk result (λ plan. plan ≡ plan_all context.now.seen) }
    ensures few { IfOk result (λ plan. length plan.fences ≤ 16) }
{
    // For its clause: the services used last stand in their order.
    let _in_order = context.last().has(ServiceId::Txn(1));
    Plan::all(alloc, context)
}

// The plan of a call of a service by a stage that has seen this: sixteen fences at most.
#[tactic(auto, using(crate::proofs::Rooming::few_for))]
fn call_plan(alloc: Global, context: &Context, service: ServiceId) -> Result<Plan, AllocError>
    ensures plan { IfOk result (λ plan. plan ≡ plan_for context.now.seen service) }
    ensures few { IfOk result (λ plan. length plan.fences ≤ 16) }
{
    // For its clause: the services used last stand in their order.
    let _in_order = context.last().has(service);
    Plan::for_service(alloc, context, service)
}

// The service that an operation calls.
fn service_of(op: &Op) -> ServiceId
    ensures { result ≡ service_for op.now }
{
    match op {
        Op::Read(key) => key.service,
        Op::Write(key, _) => key.service,
        Op::Snap(keys) => first_of(keys.as_slice()),
        Op::Txn(_, _, writes) => written_of(writes.as_slice()),
    }
}

// The service of the first of these keys.
#[tactic(auto, using(owner_turns::proofs::Firsts::firsts))]
fn first_of(keys: &[Key]) -> ServiceId
    ensures { result ≡ first_service keys.now }
{
    match keys.get(0) {
        Some(key) => key.service,
        None => ServiceId::Txn(0),
    }
}

// The service of the first key written.
#[tactic(auto, using(owner_turns::proofs::Firsts::firsts))]
fn written_of(writes: &[(Key, Expr<u8>)]) -> ServiceId
    ensures { result ≡ written_service writes.now }
{
    match writes.get(0) {
        Some(write) => write.0.service,
        None => ServiceId::Txn(0),
    }
}
