//! Requests on their way from the outbox to the net.

ghost use Rattle.std.specs.Prelude.{◌≡◌, ◌+◌, ◌<◌, ◌≤◌, ◌^◌, [], length};
ghost use Rattle.owner_sessions.specs.Boxed.{outs_of};
ghost use Rattle.rss_machine.specs.Moves.{sends, sends_one};
ghost use Rattle.rss_machine.specs.State.{State};
ghost use Rattle.world_parts.specs.Parts.{in_traffic, owner_in};
ghost use Rattle.world_traffic.specs.View.{IsBegun};

use crate::traffic::Traffic;
use rss_names::StageId;
use session_outbox::Sending;

impl Traffic {
    // Sends one request of an owner.
    #[tactic(auto, using(crate::proofs::Rows::rows))]
    pub(crate) fn send_one(&mut self, number: u32, stage: StageId, sending: Sending)
        requires begun { IsBegun self.old.traffic number }
        requires stage { (owner_in self.old.traffic number).stage ≡ stage }
        requires room { 0 < self.old.messages }
        requires few { length self.old.traffic.net < 2 ^ 32 }
        ensures sends { self.new.traffic ≡ in_traffic 0 (λ (s : State). sends_one s number sending) self.old.traffic }
        ensures room { self.new.messages + 1 ≡ self.old.messages }
        ensures others { self.new ≡ record self.old { traffic = self.new.traffic; each = self.new.each; messages = self.new.messages } }
    {
        let slot = sending.slot();
        let target = sending.target();
        let exchange = self.mail.ask(number, stage, target, sending.into_request());
        let owner = &mut self.owners[(number - 1) as usize];
        owner.await_reply(slot, exchange);
    }

    // Sends all that lies in the outbox.
    pub(crate) fn send_all(&mut self, number: u32, stage: StageId)
        requires begun { IsBegun self.old.traffic number }
        requires stage { (owner_in self.old.traffic number).stage ≡ stage }
        requires room { length (outs_of self.old.outbox) ≤ self.old.messages }
        requires few { length self.old.traffic.net + length (outs_of self.old.outbox) < 2 ^ 32 }
        ensures sends { self.new.traffic ≡ in_traffic 0 (λ (s : State). sends s number (outs_of self.old.outbox)) self.old.traffic }
        ensures sent { outs_of self.new.outbox ≡ [] }
        ensures fences { self.new.outbox.fences ≡ self.old.outbox.fences }
        ensures free { self.new.free ≡ self.old.free }
        ensures again { self.new.again ≡ self.old.again }
    {
        while let Some(sending) = self.outbox.pop() {
            self.send_one(number, stage, sending);
        }
    }
}
