//! Room for the deaths of stages.

ghost use Rattle.std.specs.Prelude.{◌≡◌, ◌+◌, ◌<◌, false, OnOk};
ghost use Rattle.machine_room.specs.Prepared.{LeavesFit, LossIn};
ghost use Rattle.parts_ready.specs.Few.{AreFew};
ghost use Rattle.world_laws.specs.Calls.{is_stub as is_stub_kind};
ghost use Rattle.world_machine.specs.Rooms.{DeathIn};
ghost use Rattle.world_parts.specs.Parts.{owner_in};
ghost use Rattle.world_traffic.specs.View.{IsBegun};

use crate::copies::{copy_of, left_of, settles};
use rss_names::StageId;
use rss_wire::Envelope;
use std::alloc::AllocError;
use world_machine::Machine;

/// Makes room for the death of a stage in the next step: its stub and an entry. An `Err` is want of
/// memory.
#[tactic(auto, using(crate::proofs::Rooming::left_fits, crate::proofs::Rooming::death_made))]
pub(crate) fn make_room_to_die(machine: &mut Machine, stage: StageId) -> Result<(), AllocError>
    requires fits { LeavesFit machine.old.traffic.traffic }
    requires few { AreFew machine.old.staging.staging machine.old.traffic.traffic }
    requires steps { machine.old.clock.steps < 200000 }
    ensures room { OnOk result (DeathIn machine.new.staging machine.new.traffic (machine.old.clock.steps + 1) stage) }
    ensures staging { machine.new.staging.staging ≡ machine.old.staging.staging }
    ensures traffic { machine.new.traffic ≡ record machine.old.traffic { free = machine.new.traffic.free; next = machine.new.traffic.next } }
    ensures others { machine.new ≡ record machine.old { staging = machine.new.staging; traffic = machine.new.traffic } }
{
    let unsettled = left_of(machine, stage)?;
    let copy = copy_of(machine, stage)?;
    machine.staging.make_room(1)?;
    let step = machine.clock.steps + 1;
    machine
        .traffic
        .prepare_stub(machine.alloc, stage, unsettled, copy, step)?;
    Ok(())
}

// Makes room for the death of the stage of an owner, if that is no stub.
fn make_room_for_end(machine: &mut Machine, owner: u32) -> Result<(), AllocError>
    requires begun { IsBegun machine.old.traffic.traffic owner }
    requires fits { LeavesFit machine.old.traffic.traffic }
    requires few { AreFew machine.old.staging.staging machine.old.traffic.traffic }
    requires steps { machine.old.clock.steps < 200000 }
    ensures room { OnOk result (is_stub_kind (owner_in machine.new.traffic.traffic owner).kind ≡ false → DeathIn machine.new.staging machine.new.traffic (machine.old.clock.steps + 1) (owner_in machine.new.traffic.traffic owner).stage) }
    ensures staging { machine.new.staging.staging ≡ machine.old.staging.staging }
    ensures traffic { machine.new.traffic ≡ record machine.old.traffic { free = machine.new.traffic.free; next = machine.new.traffic.next } }
    ensures others { machine.new ≡ record machine.old { staging = machine.new.staging; traffic = machine.new.traffic } }
{
    if settles(machine, owner) {
        return Ok(());
    }
    let stage = machine.traffic.stage_of(owner);
    make_room_to_die(machine, stage)
}

/// Makes room for the loss of a message with this outside: its request once more, and the death of
/// a stage that it can end. An `Err` is want of memory.
#[tactic(auto, using(crate::proofs::Rooming::loss_made))]
pub(crate) fn make_room_for_loss(
    machine: &mut Machine,
    envelope: &Envelope,
) -> Result<(), AllocError>
    requires begun { IsBegun machine.old.traffic.traffic envelope.now.owner }
    requires fits { LeavesFit machine.old.traffic.traffic }
    requires few { AreFew machine.old.staging.staging machine.old.traffic.traffic }
    requires steps { machine.old.clock.steps < 200000 }
    ensures room { OnOk result (LossIn machine.new.staging machine.new.traffic (machine.old.clock.steps + 1) envelope.now) }
    ensures staging { machine.new.staging.staging ≡ machine.old.staging.staging }
    ensures traffic { machine.new.traffic.traffic ≡ machine.old.traffic.traffic }
    ensures outbox { machine.new.traffic.outbox ≡ machine.old.traffic.outbox }
    ensures others { machine.new ≡ record machine.old { staging = machine.new.staging; traffic = machine.new.traffic } }
{
    machine
        .traffic
        .make_room_to_lose(machine.alloc, envelope.exchange)?;
    make_room_for_end(machine, envelope.owner)
}
