//! The current exchanges of an owner, one at most in each slot.

ghost use Rattle.std.specs.Prelude.{◌≡◌, ◌+◌, ◌<◌, ◌≤◌, None, Some, IfSome, map, set};
ghost use Rattle.rss_names.specs.declared.service.Target.TheVariants.{Replica};
ghost use Rattle.rss_wire.specs.Messages.{no_message, message_at, same_target};
ghost use Rattle.rss_machine.specs.Slots.{slot_in, unless_with, without_target};
ghost use Rattle.rss_machine.specs.State.{no_currents};

use rss_names::{ReplicaId, ServiceId, Target, is_same_service};
use rss_wire::Net;
use std::marker::Model;

/// How many slots there are: 7 of replicas, and 16 of the lines of shards.
const SLOTS: u8 = 23;

/// The exchange whose reply is awaited in each slot. Contracts see the tables' list.
#[derive(Drop)]
pub struct Currents {
    slots: [Option<u32>; 23],
}

impl Model for Currents {
    ghost use Rattle.std.specs.Prelude.{◌≡◌, ℕ, List, Option, length};

    ghost Value = { List (Option ℕ) };

    ghost view = { λ c. c.slots };

    ghost invariant = { λ c. length c.slots ≡ 23 };
}

impl Currents {
    /// Nothing is awaited.
    pub fn none() -> Currents
        ensures { result ≡ no_currents }
    {
        Currents { slots: [None; 23] }
    }

    /// An exchange becomes the current one of a slot. There are 23 slots.
    #[tactic(auto, using(crate::proofs::Places::set_past))]
    pub fn put(&mut self, slot: u8, exchange: u32)
        ensures { self.new ≡ set self.old slot (Some exchange) }
    {
        if slot < SLOTS {
            self.slots[slot as usize] = Some(exchange);
        }
    }

    /// The current exchange of a slot has ended.
    #[tactic(auto, using(crate::proofs::Places::set_past))]
    pub fn end(&mut self, slot: u8)
        ensures { self.new ≡ set self.old slot None }
    {
        if slot < SLOTS {
            self.slots[slot as usize] = None;
        }
    }

    /// No exchange is current any more.
    pub fn clear(&mut self)
        ensures { self.new ≡ no_currents }
    {
        self.slots = [None; 23];
    }

    /// The slot whose current exchange this is, the least of them.
    pub fn slot_of(&self, exchange: u32) -> Option<u8>
        ensures slot { result ≡ slot_in self.now exchange }
        ensures inside { IfSome result (λ slot. slot < 23) }
    {
        for slot in 0..SLOTS {
            if let Some(current) = self.slots[slot as usize] {
                if current == exchange {
                    return Some(slot);
                }
            }
        }
        None
    }

    /// No exchange with a replica is current any more. The net gives no message the number 0.
    pub fn forget_replica(&mut self, net: &Net, service: ServiceId, replica: ReplicaId)
        requires numbered { (message_at net.now.messages 0).envelope ≡ no_message.envelope }
        ensures { self.new ≡ without_target net.now.messages (Replica service replica) self.old }
    {
        forget_in(&mut self.slots, net, service, replica);
    }
}

// No exchange with a replica is current any more.
fn forget_in(currents: &mut [Option<u32>; 23], net: &Net, service: ServiceId, replica: ReplicaId)
    requires numbered { (message_at net.now.messages 0).envelope ≡ no_message.envelope }
    ensures { currents.new ≡ without_target net.now.messages (Replica service replica) currents.old }
{
    for place in 0..23 {
        let current = currents[place];
        currents[place] = current_unless_with(current, net, service, replica);
    }
}

// An exchange, unless it is with a replica.
fn current_unless_with(
    current: Option<u32>,
    net: &Net,
    service: ServiceId,
    replica: ReplicaId,
) -> Option<u32>
    requires numbered { (message_at net.now.messages 0).envelope ≡ no_message.envelope }
    ensures { result ≡ unless_with net.now.messages (Replica service replica) current }
{
    match current {
        Some(exchange) if is_exchange_with(exchange, net, service, replica) => None,
        _ => current,
    }
}

// Whether an exchange is with a replica.
fn is_exchange_with(exchange: u32, net: &Net, service: ServiceId, replica: ReplicaId) -> bool
    requires numbered { (message_at net.now.messages 0).envelope ≡ no_message.envelope }
    ensures { result ≡ same_target (message_at net.now.messages exchange).envelope.target (Replica service replica) }
{
    match net.envelope(exchange) {
        Some(envelope) => is_replica(envelope.target, service, replica),
        None => false,
    }
}

// Whether a target is this replica.
fn is_replica(target: Target, service: ServiceId, replica: ReplicaId) -> bool
    ensures { result ≡ same_target target (Replica service replica) }
{
    match target {
        Target::Shard(_) => false,
        Target::Replica(of, number) => {
            is_same_service(of, service) && number.number() == replica.number()
        }
    }
}
