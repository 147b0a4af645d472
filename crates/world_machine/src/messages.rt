//! Messages that come to their targets and to their owners.

ghost use Rattle.std.specs.Prelude.{◌≡◌, ◌<◌, ◌^◌, length, true, IfSome, IsSome, is_some, Some, None};
ghost use Rattle.rss_machine.specs.Effect.{comes, request_comes, reply_comes};
ghost use Rattle.rss_machine.specs.Marks.{is_store as is_store_of};
ghost use Rattle.rss_machine.specs.Moves.{marks_message};
ghost use Rattle.rss_machine.specs.Slots.{slot_in};
ghost use Rattle.rss_machine.specs.State.{owner_at};
ghost use Rattle.rss_wire.specs.Messages.{message_at, is_asked, envelope_at, request_at, reply_at as reply_of};
ghost use Rattle.rss_wire.specs.declared.message.Fate.TheVariants.{Delivered, Repeated};
ghost use Rattle.rss_wire.specs.declared.messages.Reply.{Reply as ReplyRow};
ghost use Rattle.rss_wire.specs.declared.messages.Request.{Request as RequestRow};
ghost use Rattle.world_machine.specs.Machine.{state_of};
ghost use Rattle.world_machine.specs.Hearing.{CanHear, CanCome};
ghost use Rattle.world_machine.specs.Serving.{stores_at, IsServable};
ghost use Rattle.world_machine.specs.Steps.{CanDeliver, CanRepeat};
ghost use Rattle.world_parts.specs.Halves.{answers_in};
ghost use Rattle.world_parts.specs.Parts.{in_stores};
ghost use Rattle.world_stores.specs.Serving.{serves, reply_at};
ghost use Rattle.world_traffic.specs.View.{IsBegun, IsQuiet};

use crate::machine::Machine;
use rss_names::Target;
use rss_wire::{Envelope, Request};
use truetime::Interval;

impl Machine {
    // The target of a request serves it, and the reply is sent. True where the request stores what its
    // owner writes.
    fn serve(&mut self, number: u32, envelope: &Envelope, at: Interval) -> bool
        requires there { IsSome (request_at self.old.traffic.traffic.net number) }
        requires servable { IsServable self.old number envelope.now.target }
        ensures stores { IfSome (request_at self.old.traffic.traffic.net number) (λ r.
            self.new.stores.stores ≡ in_stores self.old.clock.steps (serves envelope.now.target at.latest r) self.old.stores.stores) }
        ensures answers { IfSome (request_at self.old.traffic.traffic.net number) (λ r.
            self.new.traffic.traffic ≡ answers_in self.old.traffic.traffic number (reply_at self.old.stores.stores envelope.now.target at.latest r)) }
        ensures noted { IfSome (request_at self.old.traffic.traffic.net number) (λ r. result ≡ stores_at envelope.now.target r) }
        ensures outbox { self.new.traffic.outbox ≡ self.old.traffic.outbox }
        ensures others { self.new ≡ record self.old { traffic = self.new.traffic; stores = self.new.stores } }
    {
        let step = self.clock.steps;
        let Some(request) = self.traffic.request(number) else {
            return false;
        };
        let noted = is_noted(envelope, request);
        let reply = self.stores.serve(envelope.target, request, at, step);
        self.traffic.answer(number, reply);
        noted
    }

    // A request comes to its target; where it stores what its owner writes, that is noted.
    #[tactic(auto, using(crate::proofs::Serves::served_store, crate::proofs::Serves::served_quietly))]
    fn handle(&mut self, number: u32, envelope: &Envelope, at: Interval)
        requires there { IsSome (request_at self.old.traffic.traffic.net number) }
        requires servable { IsServable self.old number envelope.now.target }
        requires begun { IsBegun self.old.traffic.traffic envelope.now.owner }
        ensures effect { (r : RequestRow) → request_at self.old.traffic.traffic.net number ≡ Some r →
            state_of self.new ≡ request_comes (state_of self.old) number envelope.now.owner at envelope.now.target r }
        ensures outbox { self.new.traffic.outbox ≡ self.old.traffic.outbox }
        ensures others { self.new ≡ record self.old { traffic = self.new.traffic; stores = self.new.stores } }
    {
        if self.serve(number, envelope, at) {
            self.traffic.note_stored(envelope.owner);
        }
    }

    // The slot in which the owner of a reply awaits it.
    fn awaited(&self, envelope: &Envelope) -> Option<u8>
        ensures awaited { result ≡ slot_in (owner_at (state_of self.now) envelope.now.owner).currents envelope.now.exchange }
        ensures begun { IfSome result (λ _. IsBegun self.now.traffic.traffic envelope.now.owner) }
    {
        match self.owner(envelope.owner) {
            Some(owner) => owner.slot_of(envelope.exchange),
            None => None,
        }
    }

    // A reply comes; only that of a current exchange is heard.
    #[tactic(auto, using(crate::proofs::Comes::said_so))]
    fn receive(&mut self, number: u32, envelope: &Envelope, at: Interval)
        requires can { CanHear self.old number envelope.now at }
        requires quiet { IsQuiet self.old.traffic }
        ensures effect { (r : ReplyRow) → reply_of self.old.traffic.traffic.net number ≡ Some r →
            state_of self.new ≡ reply_comes self.old.config (state_of self.old) envelope.now.owner at r (slot_in (owner_at (state_of self.old) envelope.now.owner).currents envelope.now.exchange) }
        ensures quiet { IsQuiet self.new.traffic }
        ensures config { self.new.config ≡ self.old.config }
    {
        if let Some(slot) = self.awaited(envelope) {
            self.hear(envelope.owner, slot, number, at);
        }
    }

    // A message comes that was sent.
    fn come(&mut self, number: u32, envelope: &Envelope, at: Interval)
        requires can { CanCome self.old number envelope.now at }
        requires quiet { IsQuiet self.old.traffic }
        ensures effect { state_of self.new ≡ comes self.old.config (state_of self.old) number at envelope.now (message_at self.old.traffic.traffic.net number).body }
        ensures quiet { IsQuiet self.new.traffic }
        ensures config { self.new.config ≡ self.old.config }
    {
        if self.is_request(number) {
            self.handle(number, envelope, at);
        } else {
            self.receive(number, envelope, at);
        }
    }

    /// A pending message comes to its target, or to its owner.
    #[tactic(auto, using(crate::proofs::Coming::come_ready, crate::proofs::Sent::deliver_sent, crate::proofs::Coming::came))]
    pub(crate) fn deliver(&mut self, number: u32, at: Interval)
        requires can { CanDeliver self.old number at }
        ensures effect { state_of self.new ≡ comes self.old.config (marks_message (state_of self.old) number Delivered) number at (message_at (state_of self.old).net number).envelope (message_at (state_of self.old).net number).body }
        ensures quiet { IsQuiet self.new.traffic }
        ensures config { self.new.config ≡ self.old.config }
    {
        if let Some(envelope) = self.envelope(number) {
            self.traffic.deliver(number);
            self.come(number, &envelope, at);
        }
    }

    /// A message that was delivered once comes once more.
    #[tactic(auto, using(crate::proofs::Coming::come_ready, crate::proofs::Sent::again_sent, crate::proofs::Coming::came))]
    pub(crate) fn repeat(&mut self, number: u32, at: Interval)
        requires can { CanRepeat self.old number at }
        ensures effect { state_of self.new ≡ comes self.old.config (marks_message (state_of self.old) number Repeated) number at (message_at (state_of self.old).net number).envelope (message_at (state_of self.old).net number).body }
        ensures quiet { IsQuiet self.new.traffic }
        ensures config { self.new.config ≡ self.old.config }
    {
        if let Some(envelope) = self.envelope(number) {
            self.traffic.repeat(number);
            self.come(number, &envelope, at);
        }
    }

    // Whether a message that was sent is a request.
    fn is_request(&self, number: u32) -> bool
        ensures { result ≡ is_some (request_at self.now.traffic.traffic.net number) }
    {
        self.traffic.request(number).is_some()
    }
}

// Whether a request with this outside stores what its owner writes.
fn is_noted(envelope: &Envelope, request: &Request) -> bool
    ensures { result ≡ stores_at envelope.now.target request.now }
{
    match envelope.target {
        Target::Shard(_) => false,
        Target::Replica(_, _) => is_store(request),
    }
}

// Whether a request is a store.
fn is_store(request: &Request) -> bool
    ensures { result ≡ is_store_of request.now }
{
    matches!(request, Request::Store { .. })
}
