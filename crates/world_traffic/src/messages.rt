//! What becomes of messages: they are delivered, repeated and answered.

ghost use Rattle.std.specs.Prelude.{◌≡◌, ◌+◌, ◌<◌, ◌^◌, length, true, None};
ghost use Rattle.rss_machine.specs.Moves.{marks_message};
ghost use Rattle.rss_machine.specs.State.{State};
ghost use Rattle.rss_wire.specs.Messages.{is_asked};
ghost use Rattle.rss_wire.specs.Net.{deliver_refusal, lose_refusal, again_refusal};
ghost use Rattle.rss_wire.specs.declared.message.Fate.TheVariants.{Delivered, Repeated, Lost};
ghost use Rattle.world_parts.specs.Halves.{answers_in};
ghost use Rattle.world_parts.specs.Parts.{in_traffic};

use crate::traffic::Traffic;
use rss_wire::Reply;

impl Traffic {
    /// A pending message is delivered.
    pub fn deliver(&mut self, number: u32)
        requires pending { deliver_refusal self.old.traffic.net number ≡ None }
        ensures { self.new ≡ record self.old { traffic = in_traffic 0 (λ (s : State). marks_message s number Delivered) self.old.traffic } }
    {
        self.mail.deliver(number).unwrap();
    }

    /// A message that was delivered once is delivered once more.
    pub fn repeat(&mut self, number: u32)
        requires delivered { again_refusal self.old.traffic.net number ≡ None }
        ensures { self.new ≡ record self.old { traffic = in_traffic 0 (λ (s : State). marks_message s number Repeated) self.old.traffic } }
    {
        self.mail.again(number).unwrap();
    }

    // A pending message is lost.
    pub(crate) fn mark_lost(&mut self, number: u32)
        requires pending { lose_refusal self.old.traffic.net number ≡ None }
        ensures { self.new ≡ record self.old { traffic = in_traffic 0 (λ (s : State). marks_message s number Lost) self.old.traffic } }
    {
        self.mail.lose(number).unwrap();
    }

    /// A reply to a request is sent. Takes no memory.
    pub fn answer(&mut self, request: u32, reply: Reply)
        requires asked { is_asked self.old.traffic.net request ≡ true }
        requires room { 0 < self.old.messages }
        requires few { length self.old.traffic.net < 2 ^ 32 }
        ensures sent { self.new.traffic ≡ answers_in self.old.traffic request reply }
        ensures room { self.new.messages + 1 ≡ self.old.messages }
        ensures others { self.new ≡ record self.old { traffic = self.new.traffic; messages = self.new.messages } }
    {
        let _ = self.mail.answer(request, reply);
    }
}
