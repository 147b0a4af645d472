//! Room for the next step.

ghost use Rattle.std.specs.Prelude.{◌≡◌, ◌+◌, ◌<◌, true, None, OnOk};
ghost use Rattle.machine_room.specs.Prepared.{ComeIn, LossIn, TurnIf};
ghost use Rattle.machine_room.specs.Steady.{KindIn};
ghost use Rattle.rss_machine.specs.Refusal.{kind_refusal, refusal};
ghost use Rattle.rss_machine.specs.State.{stage_at};
ghost use Rattle.rss_wire.specs.Messages.{is_sent, message_at};
ghost use Rattle.world_laws.specs.Numbered.{is_numbered};
ghost use Rattle.world_machine.specs.Machine.{state_of, SameButRoom};
ghost use Rattle.world_machine.specs.Ready.{HasFacts, IsReady};
ghost use Rattle.world_machine.specs.StepRooms.{HasRoom};
ghost use Rattle.world_traffic.specs.View.{IsQuiet};

use crate::acts::make_room_to_act;
use crate::deaths::{make_room_for_loss, make_room_to_die};
use crate::messages::make_room_to_come;
use crate::turns::make_room_for_turn;
use rss_machine::{Step, StepKind};
use rss_names::StageId;
use std::alloc::AllocError;
use truetime::Interval;
use world_machine::Machine;

// Makes room for the loss of a message that was sent.
#[tactic(auto, using(crate::proofs::Known::known))]
fn make_room_to_lose(machine: &mut Machine, number: u32) -> Result<(), AllocError>
    requires ready { IsReady machine.old }
    requires facts { HasFacts machine.old }
    requires quiet { IsQuiet machine.old.traffic }
    requires steps { machine.old.clock.steps < 200000 }
    requires sent { is_sent machine.old.traffic.traffic.net number ≡ true }
    ensures room { OnOk result (LossIn machine.new.staging machine.new.traffic (machine.old.clock.steps + 1) (message_at machine.new.traffic.traffic.net number).envelope) }
    ensures same { SameButRoom machine.old machine.new }
    ensures clock { machine.new.clock ≡ machine.old.clock }
    ensures quiet { IsQuiet machine.new.traffic }
{
    match machine.envelope(number) {
        Some(envelope) => make_room_for_loss(machine, &envelope),
        None => Ok(()),
    }
}

// Makes room for a message that comes and was sent.
#[tactic(auto, using(crate::proofs::Known::known))]
fn make_room_to_take(machine: &mut Machine, number: u32, at: Interval) -> Result<(), AllocError>
    requires ready { IsReady machine.old }
    requires facts { HasFacts machine.old }
    requires quiet { IsQuiet machine.old.traffic }
    requires steps { machine.old.clock.steps < 200000 }
    requires sent { is_sent machine.old.traffic.traffic.net number ≡ true }
    ensures room { OnOk result (ComeIn machine.new.config at machine.new.staging machine.new.traffic machine.new.stores number (message_at machine.new.traffic.traffic.net number).envelope) }
    ensures same { SameButRoom machine.old machine.new }
    ensures clock { machine.new.clock ≡ machine.old.clock }
    ensures quiet { IsQuiet machine.new.traffic }
{
    match machine.envelope(number) {
        Some(envelope) => make_room_to_come(machine, number, &envelope, at),
        None => Ok(()),
    }
}

// Makes room for the step of the stub of a stage.
#[tactic(auto, using(crate::proofs::Known::known, crate::proofs::Acting::turns))]
fn make_room_to_settle(
    machine: &mut Machine,
    stage: StageId,
    at: Interval,
) -> Result<(), AllocError>
    requires ready { IsReady machine.old }
    requires facts { HasFacts machine.old }
    requires quiet { IsQuiet machine.old.traffic }
    requires steps { machine.old.clock.steps < 200000 }
    ensures room { OnOk result (TurnIf machine.new.config at machine.new.staging machine.new.traffic (stage_at (state_of machine.new) stage).stub) }
    ensures same { SameButRoom machine.old machine.new }
    ensures clock { machine.new.clock ≡ machine.old.clock }
    ensures quiet { IsQuiet machine.new.traffic }
{
    match machine.stub_of(stage) {
        Some(number) => make_room_for_turn(machine, number, at),
        None => Ok(()),
    }
}

// Makes room for a step of a kind, if it would be made.
#[tactic(auto, using(crate::proofs::Known::known, crate::proofs::Acting::kinds))]
fn make_room_for(machine: &mut Machine, at: Interval, kind: StepKind) -> Result<(), AllocError>
    requires ready { IsReady machine.old }
    requires facts { HasFacts machine.old }
    requires quiet { IsQuiet machine.old.traffic }
    requires steps { machine.old.clock.steps < 200000 }
    requires numbered { is_numbered kind ≡ true }
    requires allowed { kind_refusal machine.old.config (state_of machine.old) at kind ≡ None }
    ensures room { OnOk result (KindIn machine.new at kind) }
    ensures same { SameButRoom machine.old machine.new }
    ensures clock { machine.new.clock ≡ machine.old.clock }
    ensures quiet { IsQuiet machine.new.traffic }
{
    match kind {
        StepKind::Act(stage) => make_room_to_act(machine, stage, at),
        StepKind::Go(message) => make_room_to_take(machine, message, at),
        StepKind::Again(message) => make_room_to_take(machine, message, at),
        StepKind::Lose(message) => make_room_to_lose(machine, message),
        StepKind::Kill(stage) => make_room_to_die(machine, stage),
        StepKind::Stub(stage) => make_room_to_settle(machine, stage, at),
    }
}

/// Makes room for one step, if it would be taken: after it the step takes no memory. An `Err` is want
/// of memory, and changes nothing but room.
#[tactic(auto, using(crate::proofs::Acting::steps_low, crate::proofs::Acting::kind_allowed, crate::proofs::Acting::made))]
pub fn make_room(machine: &mut Machine, step: &Step) -> Result<(), AllocError>
    requires ready { IsReady machine.old }
    requires facts { HasFacts machine.old }
    requires quiet { IsQuiet machine.old.traffic }
    requires numbered { is_numbered step.now.kind ≡ true }
    requires allowed { refusal machine.old.config (state_of machine.old) step.now ≡ None }
    ensures room { OnOk result (HasRoom machine.new step.now) }
    ensures same { SameButRoom machine.old machine.new }
    ensures quiet { IsQuiet machine.new.traffic }
{
    make_room_for(machine, step.at, step.kind)?;
    machine.clock.make_room()
}
