//! Room for the next statement of a stage.

ghost use Rattle.std.specs.Prelude.{◌≡◌, ◌+◌, ◌<◌, ◌≤◌, ◌^◌, true, length, IfOk, OnOk};
ghost use Rattle.causal_context.specs.Seen.{nothing_seen};
ghost use Rattle.machine_room.specs.Ahead.{ahead_of as ahead_by};
ghost use Rattle.pipeline_lang.specs.Config.{statement_at};
ghost use Rattle.rss_machine.specs.Standing.{exit_context, is_live};
ghost use Rattle.rss_model.specs.CallStatement.{op_of_statement};
ghost use Rattle.world_laws.specs.Shapes.{IsSoundFile};
ghost use Rattle.world_machine.specs.Machine.{state_of};
ghost use Rattle.world_parts.specs.Parts.{stage_in, owner_in};
ghost use Rattle.world_stages.specs.Readies.{IsReadyFor};

use crate::copies::copy_of;
use causal_context::Context;
use pipeline_lang::Statement;
use pipeline_stage::{NumberedStatement, op_of};
use rss_model::Op;
use rss_names::StageId;
use std::alloc::AllocError;
use world_machine::Machine;

/// What the next statement of a stage needs, in short.
pub enum Ahead {
    Call,
    Fence,
    Wait(StageId),
    Other,
}

/// What the next statement of a stage needs.
pub(crate) fn ahead_of_next(machine: &Machine, stage: StageId) -> Ahead
    ensures { result ≡ ahead_by (statement_at machine.now.config stage (stage_in machine.now.staging.staging stage).cursor.position) }
{
    match machine.staging.next_statement(&machine.config, stage) {
        Some(statement) => ahead_of(statement),
        None => Ahead::Other,
    }
}

/// The operation of the next statement of a stage that lives, if it makes a call. An `Err` is want
/// of memory.
#[tactic(auto, using(crate::proofs::Known::reads_few, crate::proofs::Known::lives_there))]
pub(crate) fn op_of_next(machine: &Machine, stage: StageId) -> Result<Option<Op>, AllocError>
    requires lives { is_live (stage_in machine.now.staging.staging stage).life ≡ true }
    requires file { IsSoundFile machine.now.config }
    ensures { IfOk result (λ op. op ≡ op_of_statement (statement_at machine.now.config stage (stage_in machine.now.staging.staging stage).cursor.position) (stage_in machine.now.staging.staging stage).cursor.variables) }
{
    let Some(found) = machine.stage(stage) else {
        return Ok(None);
    };
    match machine.staging.next_statement(&machine.config, stage) {
        Some(statement) => op_of(machine.alloc, statement, found.variables()),
        None => Ok(None),
    }
}

// A copy of the context that lies with the exit of a stage: its own, or that of its stub.
fn exit_of(machine: &Machine, stage: StageId) -> Result<Context, AllocError>
    ensures { IfOk result (λ copy. copy.seen ≡ exit_context (state_of machine.now) stage) }
{
    match machine.stub_of(stage) {
        Some(stub) => copy_by(machine, stub),
        None => copy_of(machine, stage),
    }
}

// A copy of the copy that an owner has of the context of its stage.
fn copy_by(machine: &Machine, number: u32) -> Result<Context, AllocError>
    ensures { IfOk result (λ copy. copy.seen ≡ (owner_in machine.now.traffic.traffic number).works.copy) }
{
    match machine.owner(number) {
        Some(owner) => owner.copy().try_clone(machine.alloc),
        None => Ok(Context::empty(machine.alloc)),
    }
}

/// Makes room for a wait for a child. An `Err` is want of memory.
pub(crate) fn make_room_to_wait(
    machine: &mut Machine,
    stage: StageId,
    child: StageId,
) -> Result<(), AllocError>
    requires there { stage ≤ length machine.old.staging.staging.stages }
    requires pipes { length machine.old.config.pipe_ends ≤ 16 }
    ensures ready { OnOk result (IsReadyFor machine.old.config machine.new.staging stage (exit_context (state_of machine.old) child) (statement_at machine.old.config stage (stage_in machine.old.staging.staging stage).cursor.position)) }
    ensures staging { machine.new.staging.staging ≡ machine.old.staging.staging }
    ensures others { machine.new ≡ record machine.old { staging = machine.new.staging } }
{
    let exit = exit_of(machine, child)?;
    machine.staging.make_room_for(&machine.config, stage, &exit)
}

/// Makes room for a statement that needs no more than its stage and pipes. An `Err` is want of
/// memory.
pub(crate) fn make_room_alone(machine: &mut Machine, stage: StageId) -> Result<(), AllocError>
    requires there { stage ≤ length machine.old.staging.staging.stages }
    requires pipes { length machine.old.config.pipe_ends ≤ 16 }
    ensures ready { OnOk result (IsReadyFor machine.old.config machine.new.staging stage nothing_seen (statement_at machine.old.config stage (stage_in machine.old.staging.staging stage).cursor.position)) }
    ensures staging { machine.new.staging.staging ≡ machine.old.staging.staging }
    ensures others { machine.new ≡ record machine.old { staging = machine.new.staging } }
{
    let nothing = Context::empty(machine.alloc);
    machine
        .staging
        .make_room_for(&machine.config, stage, &nothing)
}

// What a statement needs.
fn ahead_of(statement: &NumberedStatement) -> Ahead
    ensures { result ≡ ahead_by statement.now }
{
    match statement {
        Statement::Read(_, _) => Ahead::Call,
        Statement::Write(_, _) => Ahead::Call,
        Statement::Snap(_) => Ahead::Call,
        Statement::Txn(_, _, _) => Ahead::Call,
        Statement::Fence => Ahead::Fence,
        Statement::Wait(child) => Ahead::Wait(*child),
        Statement::Let(_, _) => Ahead::Other,
        Statement::Spawn(_) => Ahead::Other,
        Statement::Put(_, _) => Ahead::Other,
        Statement::Take(_, _) => Ahead::Other,
        Statement::Close(_) => Ahead::Other,
        Statement::Repeat(_) => Ahead::Other,
        Statement::When(_) => Ahead::Other,
        Statement::End => Ahead::Other,
        Statement::Exit => Ahead::Other,
    }
}
