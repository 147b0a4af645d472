//! Room for messages that come.

ghost use Rattle.std.specs.Prelude.{◌≡◌, ◌+◌, ◌<◌, ◌≤◌, ◌^◌, length, true, is_some, IsSome, IfSome, OnOk};
ghost use Rattle.machine_room.specs.Prepared.{HearIn, ComeIn};
ghost use Rattle.owner_turns.specs.Going.{HomesFit};
ghost use Rattle.parts_ready.specs.Few.{AreFew};
ghost use Rattle.rss_machine.specs.Slots.{slot_in};
ghost use Rattle.rss_wire.specs.Messages.{reply_at, request_at};
ghost use Rattle.world_parts.specs.Parts.{owner_in, stage_in};
ghost use Rattle.world_stores.specs.StoresView.{IsThere, is_ready_for};
ghost use Rattle.world_traffic.specs.View.{IsBegun, IsQuiet};

use crate::turns::make_room_for_reply;
use rss_names::Target;
use rss_wire::Envelope;
use std::alloc::AllocError;
use truetime::Interval;
use world_machine::Machine;

// Makes room at a target for what a message asks of it, if it is a request.
fn make_room_at(machine: &mut Machine, number: u32, target: Target) -> Result<(), AllocError>
    requires here { IsThere machine.old.stores.stores.shards target }
    ensures served { OnOk result (IfSome (request_at machine.old.traffic.traffic.net number) (λ r. is_ready_for machine.new.stores target r ≡ true)) }
    ensures stores { machine.new.stores.stores ≡ machine.old.stores.stores }
    ensures others { machine.new ≡ record machine.old { stores = machine.new.stores } }
{
    match machine.traffic.request(number) {
        Some(request) => machine.stores.make_room(target, request),
        None => Ok(()),
    }
}

// Makes room where a request is served, and for its reply.
fn make_room_to_serve(machine: &mut Machine, number: u32, target: Target) -> Result<(), AllocError>
    requires here { IsThere machine.old.stores.stores.shards target }
    ensures served { OnOk result (IfSome (request_at machine.old.traffic.traffic.net number) (λ r. is_ready_for machine.new.stores target r ≡ true)) }
    ensures messages { OnOk result (0 < machine.new.traffic.messages) }
    ensures traffic { machine.new.traffic ≡ record machine.old.traffic { messages = machine.new.traffic.messages } }
    ensures stores { machine.new.stores.stores ≡ machine.old.stores.stores }
    ensures others { machine.new ≡ record machine.old { traffic = machine.new.traffic; stores = machine.new.stores } }
{
    make_room_at(machine, number, target)?;
    machine.traffic.make_room_to_answer()
}

// Whether the owner of a reply awaits it.
fn is_awaited(machine: &Machine, envelope: &Envelope) -> bool
    ensures { result ≡ is_some (slot_in (owner_in machine.now.traffic.traffic envelope.now.owner).currents envelope.now.exchange) }
{
    match machine.owner(envelope.owner) {
        Some(owner) => owner.slot_of(envelope.exchange).is_some(),
        None => false,
    }
}

// Makes room to hear a reply, if its owner awaits it.
#[tactic(auto, using(crate::proofs::Rooming::awaited_there, crate::proofs::Rooming::heard_messages))]
fn make_room_to_receive(
    machine: &mut Machine,
    number: u32,
    envelope: &Envelope,
    at: Interval,
) -> Result<(), AllocError>
    requires begun { IsBegun machine.old.traffic.traffic envelope.now.owner }
    requires homes { HomesFit machine.old.config (owner_in machine.old.traffic.traffic envelope.now.owner).kind }
    requires reply { IsSome (reply_at machine.old.traffic.traffic.net number) }
    requires quiet { IsQuiet machine.old.traffic }
    requires pipes { length machine.old.config.pipe_ends ≤ 16 }
    requires few { AreFew machine.old.staging.staging machine.old.traffic.traffic }
    requires position { (stage_in machine.old.staging.staging (owner_in machine.old.traffic.traffic envelope.now.owner).stage).cursor.position + 1 < 2 ^ 64 }
    requires steps { machine.old.clock.steps < 200000 }
    requires messages { 0 < machine.old.traffic.messages }
    ensures heard { OnOk result (is_some (slot_in (owner_in machine.old.traffic.traffic envelope.now.owner).currents envelope.now.exchange) ≡ true → HearIn machine.old.config at machine.new.staging machine.new.traffic envelope.now.owner number) }
    ensures messages { OnOk result (0 < machine.new.traffic.messages) }
    ensures staging { machine.new.staging.staging ≡ machine.old.staging.staging }
    ensures traffic { machine.new.traffic.traffic ≡ machine.old.traffic.traffic }
    ensures quiet { IsQuiet machine.new.traffic }
    ensures others { machine.new ≡ record machine.old { staging = machine.new.staging; traffic = machine.new.traffic } }
{
    if is_awaited(machine, envelope) {
        make_room_for_reply(machine, envelope.owner, number, at)?;
    }
    Ok(())
}

// Whether a message is a reply that was sent.
fn is_reply(machine: &Machine, number: u32) -> bool
    ensures { result ≡ is_some (reply_at machine.now.traffic.traffic.net number) }
{
    machine.traffic.reply(number).is_some()
}

// Makes room to hear a message, if it is a reply that its owner awaits.
#[tactic(auto, using(crate::proofs::Rooming::is_there))]
fn make_room_to_listen(
    machine: &mut Machine,
    number: u32,
    envelope: &Envelope,
    at: Interval,
) -> Result<(), AllocError>
    requires begun { IsBegun machine.old.traffic.traffic envelope.now.owner }
    requires homes { HomesFit machine.old.config (owner_in machine.old.traffic.traffic envelope.now.owner).kind }
    requires quiet { IsQuiet machine.old.traffic }
    requires pipes { length machine.old.config.pipe_ends ≤ 16 }
    requires few { AreFew machine.old.staging.staging machine.old.traffic.traffic }
    requires position { (stage_in machine.old.staging.staging (owner_in machine.old.traffic.traffic envelope.now.owner).stage).cursor.position + 1 < 2 ^ 64 }
    requires steps { machine.old.clock.steps < 200000 }
    requires messages { 0 < machine.old.traffic.messages }
    ensures heard { OnOk result (IsSome (reply_at machine.old.traffic.traffic.net number) → is_some (slot_in (owner_in machine.old.traffic.traffic envelope.now.owner).currents envelope.now.exchange) ≡ true → HearIn machine.old.config at machine.new.staging machine.new.traffic envelope.now.owner number) }
    ensures messages { OnOk result (0 < machine.new.traffic.messages) }
    ensures staging { machine.new.staging.staging ≡ machine.old.staging.staging }
    ensures traffic { machine.new.traffic.traffic ≡ machine.old.traffic.traffic }
    ensures quiet { IsQuiet machine.new.traffic }
    ensures others { machine.new ≡ record machine.old { staging = machine.new.staging; traffic = machine.new.traffic } }
{
    if is_reply(machine, number) {
        return make_room_to_receive(machine, number, envelope, at);
    }
    Ok(())
}

/// Makes room for a message with this outside that comes in the next step: a request is served and
/// answered, a reply is heard. An `Err` is want of memory.
#[tactic(auto, using(crate::proofs::Rooming::come_made))]
pub(crate) fn make_room_to_come(
    machine: &mut Machine,
    number: u32,
    envelope: &Envelope,
    at: Interval,
) -> Result<(), AllocError>
    requires here { IsThere machine.old.stores.stores.shards envelope.now.target }
    requires begun { IsBegun machine.old.traffic.traffic envelope.now.owner }
    requires homes { HomesFit machine.old.config (owner_in machine.old.traffic.traffic envelope.now.owner).kind }
    requires quiet { IsQuiet machine.old.traffic }
    requires pipes { length machine.old.config.pipe_ends ≤ 16 }
    requires few { AreFew machine.old.staging.staging machine.old.traffic.traffic }
    requires position { (stage_in machine.old.staging.staging (owner_in machine.old.traffic.traffic envelope.now.owner).stage).cursor.position + 1 < 2 ^ 64 }
    requires steps { machine.old.clock.steps < 200000 }
    ensures room { OnOk result (ComeIn machine.old.config at machine.new.staging machine.new.traffic machine.new.stores number envelope.now) }
    ensures staging { machine.new.staging.staging ≡ machine.old.staging.staging }
    ensures traffic { machine.new.traffic.traffic ≡ machine.old.traffic.traffic }
    ensures stores { machine.new.stores.stores ≡ machine.old.stores.stores }
    ensures quiet { IsQuiet machine.new.traffic }
    ensures others { machine.new ≡ record machine.old { staging = machine.new.staging; traffic = machine.new.traffic; stores = machine.new.stores } }
{
    make_room_to_serve(machine, number, envelope.target)?;
    make_room_to_listen(machine, number, envelope, at)
}
