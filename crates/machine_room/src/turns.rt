//! Room for turns of owners, and for each end that they can have.

ghost use Rattle.std.specs.Prelude.{◌≡◌, ◌+◌, ◌<◌, ◌≤◌, ◌^◌, length, true, false, None, IsSome, IfOk, OnOk};
ghost use Rattle.machine_room.specs.Prepared.{EndsRoom, HearIn};
ghost use Rattle.owner_turns.specs.Going.{HomesFit};
ghost use Rattle.parts_ready.specs.Few.{AreFew};
ghost use Rattle.rss_machine.specs.Calls.{fenced_context};
ghost use Rattle.rss_machine.specs.State.{no_owner};
ghost use Rattle.rss_wire.specs.Messages.{reply_at};
ghost use Rattle.world_laws.specs.Calls.{is_call, is_stub};
ghost use Rattle.world_parts.specs.Parts.{owner_in, stage_in};
ghost use Rattle.world_traffic.specs.View.{HasTurnRoom, IsBegun, IsQuiet};

use crate::copies::{behind_fence, calls, copy_of, settles};
use causal_context::Context;
use std::alloc::AllocError;
use truetime::Interval;
use world_machine::Machine;

// Makes room for the end of a fence statement.
#[tactic(auto, using(crate::proofs::Rooming::fence_ends))]
fn make_room_to_fence_over(machine: &mut Machine, number: u32) -> Result<(), AllocError>
    requires begun { IsBegun machine.old.traffic.traffic number }
    requires there { owner_in machine.old.traffic.traffic number ≡ no_owner → ⊥ }
    requires kind { is_call (owner_in machine.old.traffic.traffic number).kind ≡ false }
    requires settles { is_stub (owner_in machine.old.traffic.traffic number).kind ≡ false }
    requires position { (stage_in machine.old.staging.staging (owner_in machine.old.traffic.traffic number).stage).cursor.position + 1 < 2 ^ 64 }
    ensures ends { OnOk result (EndsRoom machine.old.config machine.new.staging (owner_in machine.old.traffic.traffic number)) }
    ensures staging { machine.new.staging.staging ≡ machine.old.staging.staging }
    ensures others { machine.new ≡ record machine.old { staging = machine.new.staging } }
{
    let context = fenced_of(machine, number)?;
    machine.staging.ready_copies(&context, 1, 1)
}

// What the stage of an owner has seen behind a fence statement of that owner.
fn fenced_of(machine: &Machine, number: u32) -> Result<Context, AllocError>
    requires begun { IsBegun machine.now.traffic.traffic number }
    requires there { owner_in machine.now.traffic.traffic number ≡ no_owner → ⊥ }
    ensures { IfOk result (λ context. context.seen ≡ fenced_context (stage_in machine.now.staging.staging (owner_in machine.now.traffic.traffic number).stage).context (owner_in machine.now.traffic.traffic number).works.copy) }
{
    let before = copy_of(machine, machine.traffic.stage_of(number))?;
    match machine.traffic.owner(number) {
        Some(owner) => behind_fence(machine.alloc, &before, owner.copy()),
        None => Ok(before),
    }
}

// Makes room for the end of a stub.
#[tactic(auto, using(crate::proofs::Rooming::stub_ends))]
fn make_room_to_stub_over(machine: &mut Machine, number: u32) -> Result<(), AllocError>
    requires there { owner_in machine.old.traffic.traffic number ≡ no_owner → ⊥ }
    requires settles { is_stub (owner_in machine.old.traffic.traffic number).kind ≡ true }
    requires pipes { length machine.old.config.pipe_ends ≤ 16 }
    requires few { AreFew machine.old.staging.staging machine.old.traffic.traffic }
    ensures ends { OnOk result (EndsRoom machine.old.config machine.new.staging (owner_in machine.old.traffic.traffic number)) }
    ensures staging { machine.new.staging.staging ≡ machine.old.staging.staging }
    ensures others { machine.new ≡ record machine.old { staging = machine.new.staging } }
{
    match machine.traffic.owner(number) {
        Some(owner) => machine.staging.ready_fenced(&machine.config, owner.copy()),
        None => Ok(()),
    }
}

// Makes room for each end that a turn of an owner can have. An `Err` is want of memory.
#[tactic(auto, using(crate::proofs::Rooming::call_ends))]
fn make_room_to_end(machine: &mut Machine, number: u32) -> Result<(), AllocError>
    requires begun { IsBegun machine.old.traffic.traffic number }
    requires there { owner_in machine.old.traffic.traffic number ≡ no_owner → ⊥ }
    requires pipes { length machine.old.config.pipe_ends ≤ 16 }
    requires few { AreFew machine.old.staging.staging machine.old.traffic.traffic }
    requires position { (stage_in machine.old.staging.staging (owner_in machine.old.traffic.traffic number).stage).cursor.position + 1 < 2 ^ 64 }
    ensures ends { OnOk result (EndsRoom machine.old.config machine.new.staging (owner_in machine.old.traffic.traffic number)) }
    ensures staging { machine.new.staging.staging ≡ machine.old.staging.staging }
    ensures others { machine.new ≡ record machine.old { staging = machine.new.staging } }
{
    if settles(machine, number) {
        return make_room_to_stub_over(machine, number);
    }
    if calls(machine, number) {
        return machine.staging.make_room(1);
    }
    make_room_to_fence_over(machine, number)
}

/// Makes room for a turn of an owner by itself in the next step, and for its end. An `Err` is want of
/// memory.
pub(crate) fn make_room_for_turn(
    machine: &mut Machine,
    number: u32,
    at: Interval,
) -> Result<(), AllocError>
    requires begun { IsBegun machine.old.traffic.traffic number }
    requires there { owner_in machine.old.traffic.traffic number ≡ no_owner → ⊥ }
    requires homes { HomesFit machine.old.config (owner_in machine.old.traffic.traffic number).kind }
    requires quiet { IsQuiet machine.old.traffic }
    requires pipes { length machine.old.config.pipe_ends ≤ 16 }
    requires few { AreFew machine.old.staging.staging machine.old.traffic.traffic }
    requires position { (stage_in machine.old.staging.staging (owner_in machine.old.traffic.traffic number).stage).cursor.position + 1 < 2 ^ 64 }
    requires steps { machine.old.clock.steps < 200000 }
    ensures turn { OnOk result (HasTurnRoom machine.old.config at machine.new.traffic number None) }
    ensures ends { OnOk result (EndsRoom machine.old.config machine.new.staging (owner_in machine.old.traffic.traffic number)) }
    ensures staging { machine.new.staging.staging ≡ machine.old.staging.staging }
    ensures traffic { machine.new.traffic.traffic ≡ machine.old.traffic.traffic }
    ensures quiet { IsQuiet machine.new.traffic }
    ensures others { machine.new ≡ record machine.old { staging = machine.new.staging; traffic = machine.new.traffic } }
{
    let step = machine.clock.steps + 1;
    machine
        .traffic
        .make_room_to_act(&machine.config, number, step, at)?;
    make_room_to_end(machine, number)
}

/// Makes room for a turn in which an owner hears what a message says in the next step, and for its
/// end. An `Err` is want of memory.
#[tactic(auto, using(crate::proofs::Rooming::hear_made))]
pub(crate) fn make_room_for_reply(
    machine: &mut Machine,
    number: u32,
    message: u32,
    at: Interval,
) -> Result<(), AllocError>
    requires begun { IsBegun machine.old.traffic.traffic number }
    requires there { owner_in machine.old.traffic.traffic number ≡ no_owner → ⊥ }
    requires homes { HomesFit machine.old.config (owner_in machine.old.traffic.traffic number).kind }
    requires reply { IsSome (reply_at machine.old.traffic.traffic.net message) }
    requires quiet { IsQuiet machine.old.traffic }
    requires pipes { length machine.old.config.pipe_ends ≤ 16 }
    requires few { AreFew machine.old.staging.staging machine.old.traffic.traffic }
    requires position { (stage_in machine.old.staging.staging (owner_in machine.old.traffic.traffic number).stage).cursor.position + 1 < 2 ^ 64 }
    requires steps { machine.old.clock.steps < 200000 }
    ensures room { OnOk result (HearIn machine.old.config at machine.new.staging machine.new.traffic number message) }
    ensures staging { machine.new.staging.staging ≡ machine.old.staging.staging }
    ensures traffic { machine.new.traffic.traffic ≡ machine.old.traffic.traffic }
    ensures quiet { IsQuiet machine.new.traffic }
    ensures others { machine.new ≡ record machine.old { staging = machine.new.staging; traffic = machine.new.traffic } }
{
    let step = machine.clock.steps + 1;
    machine
        .traffic
        .make_room_to_hear(&machine.config, number, step, at, message)?;
    make_room_to_end(machine, number)
}
