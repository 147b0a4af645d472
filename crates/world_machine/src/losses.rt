//! Losses: a message is lost, and with the last one that its owner bears, its target.

ghost use Rattle.std.specs.Prelude.{◌≡◌, ◌<◌, ◌≤◌, length, Some, None, IfSome};
ghost use Rattle.rss_machine.specs.Effect.{loses, target_lost};
ghost use Rattle.rss_machine.specs.Moves.{marks_message};
ghost use Rattle.rss_machine.specs.State.{State, owner_at};
ghost use Rattle.rss_wire.specs.Messages.{message_at};
ghost use Rattle.rss_wire.specs.declared.message.Fate.TheVariants.{Lost};
ghost use Rattle.turn_laws.specs.Losses.{counts_lost, target_of_loss, ends_loss};
ghost use Rattle.world_laws.specs.Calls.{is_stub as is_stub_kind};
ghost use Rattle.world_machine.specs.Dying.{OwnersFit, CanLose};
ghost use Rattle.world_machine.specs.Losing.{CanBear};
ghost use Rattle.world_machine.specs.Machine.{state_of};
ghost use Rattle.world_parts.specs.Parts.{in_traffic};
ghost use Rattle.world_traffic.specs.View.{IsBegun};

use crate::machine::Machine;
use rss_machine::{OwnerFate, OwnerKind};
use rss_model::How;
use rss_names::Target;

impl Machine {
    // A target is lost to an owner: a call or a fence statement ends its stage, and a stub ends unfenced.
    fn lose_target(&mut self, owner: u32, target: Target)
        requires begun { IsBegun self.old.traffic.traffic owner }
        requires can { CanLose self.old owner }
        ensures lost { state_of self.new ≡ target_lost self.old.config (state_of self.old) owner target (owner_at (state_of self.old) owner).kind }
        ensures outbox { self.new.traffic.outbox ≡ self.old.traffic.outbox }
        ensures config { self.new.config ≡ self.old.config }
    {
        if self.is_stub(owner) {
            self.lose_stub(owner, target);
        } else {
            let stage = self.traffic.stage_of(owner);
            self.die(stage, How::Unavailable, OwnerFate::CutOff(target));
        }
    }

    // A pending message is lost: the loss is counted, and the request sent again or its target cut off.
    // The target that its owner loses with it, if it does.
    #[tactic(auto, using(crate::proofs::Losing::lost_part))]
    fn bear(&mut self, number: u32) -> Option<Target>
        requires can { CanBear self.old number }
        ensures state { state_of self.new ≡ counts_lost self.old.config (marks_message (state_of self.old) number Lost) (message_at (state_of self.old).net number).envelope }
        ensures target { result ≡ target_of_loss self.old.config (marks_message (state_of self.old) number Lost) (message_at (state_of self.old).net number).envelope }
        ensures traffic { self.new.traffic.traffic ≡ in_traffic 0 (λ (s : State). counts_lost self.old.config (marks_message s number Lost) (message_at s.net number).envelope) self.old.traffic.traffic }
        ensures free { self.new.traffic.free ≡ self.old.traffic.free }
        ensures next { self.new.traffic.next ≡ self.old.traffic.next }
        ensures outbox { self.new.traffic.outbox ≡ self.old.traffic.outbox }
        ensures others { self.new ≡ record self.old { traffic = self.new.traffic } }
    {
        self.traffic.lose(&self.config, number)
    }

    // What a loss ends, if it ends anything.
    fn end_loss(&mut self, owner: u32, target: Option<Target>)
        requires begun { IsBegun self.old.traffic.traffic owner }
        requires can { CanLose self.old owner }
        ensures ends { state_of self.new ≡ ends_loss self.old.config (state_of self.old) owner target }
        ensures outbox { self.new.traffic.outbox ≡ self.old.traffic.outbox }
        ensures config { self.new.config ≡ self.old.config }
    {
        if let Some(target) = target {
            self.lose_target(owner, target);
        }
    }

    /// A pending message is lost.
    #[tactic(auto, using(crate::proofs::Losing::borne, crate::proofs::Losing::lost_whole, crate::proofs::Sent::lose_sent))]
    pub(crate) fn lose(&mut self, number: u32)
        requires can { CanBear self.old number }
        ensures effect { state_of self.new ≡ loses self.old.config (marks_message (state_of self.old) number Lost) (message_at (state_of self.old).net number).envelope }
        ensures outbox { self.new.traffic.outbox ≡ self.old.traffic.outbox }
        ensures config { self.new.config ≡ self.old.config }
    {
        if let Some(envelope) = self.envelope(number) {
            let target = self.bear(number);
            self.end_loss(envelope.owner, target);
        }
    }

    // Whether an owner is a stub.
    fn is_stub(&self, owner: u32) -> bool
        ensures { result ≡ is_stub_kind (owner_at (state_of self.now) owner).kind }
    {
        match self.owner(owner) {
            Some(found) => is_stub(found.kind()),
            None => false,
        }
    }
}

// Whether an owner of this kind is a stub.
fn is_stub(kind: &OwnerKind) -> bool
    ensures { result ≡ is_stub_kind kind.now }
{
    match kind {
        OwnerKind::Calling(_) => false,
        OwnerKind::Fencing => false,
        OwnerKind::Stubbing(_) => true,
    }
}
