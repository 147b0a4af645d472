//! Room for acts of stages.

ghost use Rattle.std.specs.Prelude.{◌≡◌, ◌+◌, ◌<◌, ◌≤◌, true, length, OnOk};
ghost use Rattle.machine_room.specs.Ahead.{ahead_of as ahead_by, AheadIn, CallIn};
ghost use Rattle.machine_room.specs.Steady.{ActIn};
ghost use Rattle.machine_room.specs.declared.statements.Ahead.TheVariants as aheads;
ghost use Rattle.pipeline_lang.specs.Config.{statement_at};
ghost use Rattle.rss_machine.specs.Standing.{is_live};
ghost use Rattle.world_machine.specs.Machine.{state_of, SameButRoom};
ghost use Rattle.world_machine.specs.Ready.{HasFacts, IsReady};
ghost use Rattle.world_parts.specs.Parts.{stage_in};
ghost use Rattle.world_traffic.specs.View.{IsQuiet};

use crate::calls::{make_room_to_call, make_room_to_fence};
use crate::statements::{Ahead, ahead_of_next, make_room_alone, make_room_to_wait, op_of_next};
use crate::turns::make_room_for_turn;
use rss_names::StageId;
use std::alloc::AllocError;
use truetime::Interval;
use world_machine::Machine;

// Makes room for the call of the next statement of a stage that lives.
#[tactic(auto, using(crate::proofs::Known::known, crate::proofs::Acting::calling))]
fn make_room_to_begin(machine: &mut Machine, stage: StageId, at: Interval) -> Result<(), AllocError>
    requires ready { IsReady machine.old }
    requires facts { HasFacts machine.old }
    requires quiet { IsQuiet machine.old.traffic }
    requires steps { machine.old.clock.steps < 200000 }
    requires lives { is_live (stage_in machine.old.staging.staging stage).life ≡ true }
    requires there { stage ≤ length machine.old.staging.staging.stages }
    requires call { ahead_by (statement_at machine.old.config stage (stage_in machine.old.staging.staging stage).cursor.position) ≡ aheads.Call }
    ensures room { OnOk result (CallIn machine.new at (machine.old.clock.steps + 1) stage (statement_at machine.old.config stage (stage_in machine.old.staging.staging stage).cursor.position)) }
    ensures same { SameButRoom machine.old machine.new }
    ensures clock { machine.new.clock ≡ machine.old.clock }
    ensures quiet { IsQuiet machine.new.traffic }
{
    match op_of_next(machine, stage)? {
        Some(op) => make_room_to_call(machine, stage, op, at),
        None => Ok(()),
    }
}

// Makes room for the next statement of a stage that lives.
#[tactic(auto, using(crate::proofs::Known::known, crate::proofs::Acting::aheads))]
fn make_room_for_statement(
    machine: &mut Machine,
    stage: StageId,
    at: Interval,
) -> Result<(), AllocError>
    requires ready { IsReady machine.old }
    requires facts { HasFacts machine.old }
    requires quiet { IsQuiet machine.old.traffic }
    requires steps { machine.old.clock.steps < 200000 }
    requires lives { is_live (stage_in machine.old.staging.staging stage).life ≡ true }
    requires there { stage ≤ length machine.old.staging.staging.stages }
    ensures room { OnOk result (AheadIn machine.new at (machine.old.clock.steps + 1) stage (statement_at machine.old.config stage (stage_in machine.old.staging.staging stage).cursor.position) (ahead_by (statement_at machine.old.config stage (stage_in machine.old.staging.staging stage).cursor.position))) }
    ensures same { SameButRoom machine.old machine.new }
    ensures clock { machine.new.clock ≡ machine.old.clock }
    ensures quiet { IsQuiet machine.new.traffic }
{
    match ahead_of_next(machine, stage) {
        Ahead::Call => make_room_to_begin(machine, stage, at),
        Ahead::Fence => make_room_to_fence(machine, stage, at),
        Ahead::Wait(child) => make_room_to_wait(machine, stage, child),
        Ahead::Other => make_room_alone(machine, stage),
    }
}

/// Makes room for an act of a stage.
#[tactic(auto, using(crate::proofs::Known::known, crate::proofs::Acting::acts))]
pub(crate) fn make_room_to_act(
    machine: &mut Machine,
    stage: StageId,
    at: Interval,
) -> Result<(), AllocError>
    requires ready { IsReady machine.old }
    requires facts { HasFacts machine.old }
    requires quiet { IsQuiet machine.old.traffic }
    requires steps { machine.old.clock.steps < 200000 }
    requires lives { is_live (stage_in machine.old.staging.staging stage).life ≡ true }
    requires there { stage ≤ length machine.old.staging.staging.stages }
    ensures room { OnOk result (ActIn machine.new stage at) }
    ensures same { SameButRoom machine.old machine.new }
    ensures clock { machine.new.clock ≡ machine.old.clock }
    ensures quiet { IsQuiet machine.new.traffic }
{
    match machine.owner_of(stage) {
        Some(number) => make_room_for_turn(machine, number, at),
        None => make_room_for_statement(machine, stage, at),
    }
}
