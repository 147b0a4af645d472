//! Losses: a message is lost, and with the last one that its owner bears, its target.

ghost use Rattle.std.specs.Prelude.{◌≡◌, ◌+◌, ◌-◌, ◌<◌, ◌^◌, length, None, IsTrue, IsSome};
ghost use Rattle.pipeline_lang.specs.Config.{replicas_of};
ghost use Rattle.rss_machine.specs.Effect.{replaces, asks_again};
ghost use Rattle.rss_machine.specs.Moves.{marks_message, counts_loss, cuts_off};
ghost use Rattle.rss_machine.specs.Slots.{slot_in};
ghost use Rattle.rss_machine.specs.Standing.{is_running as runs};
ghost use Rattle.rss_machine.specs.State.{State};
ghost use Rattle.rss_names.specs.declared.service.Target.TheVariants.{Replica};
ghost use Rattle.rss_tables.specs.Losses.{losses_of, reaches_tries, is_quorum_lost};
ghost use Rattle.rss_wire.specs.Messages.{no_message, message_at, request_at};
ghost use Rattle.rss_wire.specs.Net.{lose_refusal};
ghost use Rattle.rss_wire.specs.declared.message.Fate.TheVariants.{Lost};
ghost use Rattle.turn_laws.specs.Losses.{cut_at, lost_with, counts_one, one_lost, counts_lost, target_of_loss};
ghost use Rattle.world_parts.specs.Parts.{in_traffic, owner_in};
ghost use Rattle.world_traffic.specs.View.{IsBegun, with_traffic, MayLose};

use crate::traffic::Traffic;
use pipeline_lang::Config;
use rss_names::{ReplicaId, ServiceId, StageId, Target};
use rss_wire::Envelope;
use session_outbox::Sending;
use std::mem;

impl Traffic {
    /// A pending message is lost. Where its owner is running, the loss is counted, and the target cut off
    /// or the request of its exchange sent again. Gives the target that the owner loses with it, if it
    /// does. Takes no memory.
    pub fn lose(&mut self, config: &Config, number: u32) -> Option<Target>
        requires pending { lose_refusal self.old.traffic.net number ≡ None }
        requires ready { MayLose self.old.traffic (message_at self.old.traffic.net number).envelope }
        requires room { 0 < self.old.messages }
        requires again { self.old.again ≡ request_at self.old.traffic.net (message_at self.old.traffic.net number).envelope.exchange }
        ensures lost { self.new.traffic ≡ in_traffic 0 (λ (s : State). counts_lost config.now (marks_message s number Lost) (message_at s.net number).envelope) self.old.traffic }
        ensures target { result ≡ target_of_loss config.now (with_traffic self.old.traffic) (message_at self.old.traffic.net number).envelope }
        ensures outbox { self.new.outbox ≡ self.old.outbox }
        ensures free { self.new.free ≡ self.old.free }
        ensures next { self.new.next ≡ self.old.next }
    {
        match self.envelope(number) {
            Some(envelope) => {
                self.mark_lost(number);
                self.count_lost(config, &envelope)
            }
            None => None,
        }
    }

    // A loss counts where its owner is running.
    fn count_lost(&mut self, config: &Config, envelope: &Envelope) -> Option<Target>
        requires ready { MayLose self.old.traffic envelope.now }
        requires room { 0 < self.old.messages }
        requires again { self.old.again ≡ request_at self.old.traffic.net envelope.now.exchange }
        ensures lost { self.new.traffic ≡ in_traffic 0 (λ (s : State). counts_lost config.now s envelope.now) self.old.traffic }
        ensures target { result ≡ target_of_loss config.now (with_traffic self.old.traffic) envelope.now }
        ensures outbox { self.new.outbox ≡ self.old.outbox }
        ensures free { self.new.free ≡ self.old.free }
        ensures next { self.new.next ≡ self.old.next }
    {
        if self.is_running(envelope.owner) {
            self.count_one(config, envelope)
        } else {
            None
        }
    }

    // Whether an owner is running.
    fn is_running(&self, number: u32) -> bool
        ensures running { result ≡ runs (owner_in self.now.traffic number).fate }
        ensures within { IsTrue result → IsBegun self.now.traffic number }
    {
        match self.owner(number) {
            Some(owner) => owner.is_running(),
            None => false,
        }
    }

    // An owner that is running has lost one message more: the target is cut off, or the request sent
    // again.
    fn count_one(&mut self, config: &Config, envelope: &Envelope) -> Option<Target>
        requires begun { IsBegun self.old.traffic envelope.now.owner }
        requires ready { MayLose self.old.traffic envelope.now }
        requires room { 0 < self.old.messages }
        requires again { self.old.again ≡ request_at self.old.traffic.net envelope.now.exchange }
        ensures lost { self.new.traffic ≡ in_traffic 0 (λ (s : State). counts_one config.now s envelope.now.owner envelope.now) self.old.traffic }
        ensures target { result ≡ one_lost config.now (with_traffic self.old.traffic) envelope.now.owner envelope.now }
        ensures outbox { self.new.outbox ≡ self.old.outbox }
        ensures free { self.new.free ≡ self.old.free }
        ensures next { self.new.next ≡ self.old.next }
    {
        let owner = envelope.owner;
        let tries = config.tries;
        if self.bear(owner, envelope.target, tries) {
            return self.cut_off(config, owner, envelope.target);
        }
        if self.lost(owner, envelope.target) < tries as u32 {
            self.replace(owner, envelope.target, envelope.exchange);
        }
        None
    }

    // One more message between an owner and a target is lost. True exactly where this loss reaches
    // `tries`.
    #[tactic(auto, using(crate::proofs::Rows::rows))]
    fn bear(&mut self, owner: u32, target: Target, tries: u8) -> bool
        requires begun { IsBegun self.old.traffic owner }
        requires few { losses_of (owner_in self.old.traffic owner).losses target + 1 < 2 ^ 32 }
        ensures counts { self.new ≡ record self.old { traffic = in_traffic 0 (λ (s : State). counts_loss s owner target) self.old.traffic; each = self.new.each } }
        ensures reaches { result ≡ reaches_tries tries (owner_in self.old.traffic owner).losses target }
    {
        let found = &mut self.owners[(owner - 1) as usize];
        found.count_loss(target, tries)
    }

    // How many messages between an owner and a target were lost.
    #[tactic(auto, using(crate::proofs::Rows::rows))]
    fn lost(&self, owner: u32, target: Target) -> u32
        requires begun { IsBegun self.now.traffic owner }
        ensures { result ≡ losses_of (owner_in self.now.traffic owner).losses target }
    {
        let found = &self.owners[(owner - 1) as usize];
        found.losses_of(target)
    }

    // A target that reaches its tries is cut off. Gives it where the owner loses it.
    fn cut_off(&mut self, config: &Config, owner: u32, target: Target) -> Option<Target>
        requires begun { IsBegun self.old.traffic owner }
        requires numbered { (message_at self.old.traffic.net 0).envelope ≡ no_message.envelope }
        ensures cuts { self.new ≡ record self.old { traffic = in_traffic 0 (λ (s : State). cut_at s owner target) self.old.traffic; each = self.new.each } }
        ensures target { result ≡ lost_with config.now (owner_in self.old.traffic owner) target }
    {
        match target {
            Target::Shard(_) => Some(target),
            Target::Replica(service, replica) => {
                if self.go_without(config, owner, service, replica) {
                    Some(target)
                } else {
                    None
                }
            }
        }
    }

    // No exchange with a replica is current any more for an owner, and its round goes on without it.
    // True where a majority of the service cannot spare those that are cut off.
    #[tactic(auto, using(crate::proofs::Rows::rows))]
    fn go_without(
        &mut self,
        config: &Config,
        owner: u32,
        service: ServiceId,
        replica: ReplicaId,
    ) -> bool
        requires begun { IsBegun self.old.traffic owner }
        requires numbered { (message_at self.old.traffic.net 0).envelope ≡ no_message.envelope }
        ensures cuts { self.new ≡ record self.old { traffic = in_traffic 0 (λ (s : State). cuts_off s owner (Replica service replica)) self.old.traffic; each = self.new.each } }
        ensures lost { result ≡ is_quorum_lost config.now.tries (owner_in self.old.traffic owner).losses service (replicas_of config.now service) }
    {
        let tries = config.tries;
        let replicas = config.replicas(service);
        let found = &mut self.owners[(owner - 1) as usize];
        found.cut_off(self.mail.net(), service, replica);
        found.quorum_lost(tries, service, replicas)
    }

    // The request of an exchange is sent again where that is current.
    #[tactic(auto, using(crate::proofs::Rows::rows))]
    fn replace(&mut self, owner: u32, target: Target, exchange: u32)
        requires begun { IsBegun self.old.traffic owner }
        requires request { IsSome (request_at self.old.traffic.net exchange) }
        requires few { length self.old.traffic.net < 2 ^ 32 }
        requires room { 0 < self.old.messages }
        requires again { self.old.again ≡ request_at self.old.traffic.net exchange }
        ensures replaces { self.new.traffic ≡ in_traffic 0 (λ (s : State). replaces s owner target exchange (slot_in (owner_in self.old.traffic owner).currents exchange)) self.old.traffic }
        ensures outbox { self.new.outbox ≡ self.old.outbox }
        ensures free { self.new.free ≡ self.old.free }
        ensures next { self.new.next ≡ self.old.next }
    {
        let found = &self.owners[(owner - 1) as usize];
        let stage = found.stage();
        if let Some(slot) = found.slot_of(exchange) {
            self.ask_again(owner, stage, target, slot, exchange);
        }
    }

    // The request of an exchange is sent once more, and its reply awaited in this slot.
    #[tactic(auto, using(crate::proofs::Again::asks_same))]
    fn ask_again(&mut self, owner: u32, stage: StageId, target: Target, slot: u8, exchange: u32)
        requires begun { IsBegun self.old.traffic owner }
        requires stage { (owner_in self.old.traffic owner).stage ≡ stage }
        requires request { IsSome (request_at self.old.traffic.net exchange) }
        requires few { length self.old.traffic.net < 2 ^ 32 }
        requires room { 0 < self.old.messages }
        requires again { self.old.again ≡ request_at self.old.traffic.net exchange }
        ensures asks { self.new.traffic ≡ in_traffic 0 (λ (s : State). asks_again s owner slot target (message_at self.old.traffic.net exchange).body) self.old.traffic }
        ensures outbox { self.new.outbox ≡ self.old.outbox }
        ensures free { self.new.free ≡ self.old.free }
        ensures next { self.new.next ≡ self.old.next }
    {
        let copy = mem::replace(&mut self.again, None);
        if let Some(request) = copy {
            self.send_one(owner, stage, Sending::new(Some(slot), target, request));
        }
    }
}
