//! Steps of all kinds.

ghost use Rattle.std.specs.Prelude.{◌≡◌, true, None};
ghost use Rattle.rss_machine.specs.Effect.{stepped, effect as effect_of};
ghost use Rattle.rss_machine.specs.Moves.{ticks};
ghost use Rattle.rss_machine.specs.Refusal.{refusal};
ghost use Rattle.world_laws.specs.Numbered.{is_numbered};
ghost use Rattle.world_machine.specs.Machine.{state_of};
ghost use Rattle.world_machine.specs.Ready.{IsReady, HasFacts};
ghost use Rattle.world_machine.specs.StepRooms.{HasRoom};
ghost use Rattle.world_machine.specs.Steps.{CanDo, CanTake};
ghost use Rattle.world_traffic.specs.View.{IsQuiet};

use crate::machine::Machine;
use rss_machine::{Step, StepKind};
use truetime::Interval;

impl Machine {
    // A step is counted, and its reading taken.
    fn count(&mut self, s: &Step)
        requires can { CanTake self.old s.now }
        ensures counts { state_of self.new ≡ ticks (state_of self.old) s.now.at }
        ensures can { CanDo self.new s.now.at s.now.kind }
        ensures traffic { self.new.traffic ≡ self.old.traffic }
        ensures config { self.new.config ≡ self.old.config }
    {
        self.clock.tick(s.at);
    }

    // Makes a step of this kind, which was counted.
    #[tactic(auto, unfolding(rss_machine::specs::Effect::effect))]
    fn make(&mut self, at: Interval, kind: StepKind)
        requires can { CanDo self.old at kind }
        requires quiet { IsQuiet self.old.traffic }
        ensures effect { state_of self.new ≡ effect_of self.old.config (state_of self.old) at kind }
        ensures quiet { IsQuiet self.new.traffic }
        ensures config { self.new.config ≡ self.old.config }
    {
        match kind {
            StepKind::Act(stage) => self.act(stage, at),
            StepKind::Go(message) => self.deliver(message, at),
            StepKind::Again(message) => self.repeat(message, at),
            StepKind::Lose(message) => self.lose(message),
            StepKind::Kill(stage) => self.kill(stage),
            StepKind::Stub(stage) => self.settle(stage, at),
        }
    }

    /// Takes a step that is not refused, and for which there is room. Takes no memory.
    #[tactic(auto, using(crate::proofs::Doing::can_take))]
    pub fn take(&mut self, s: &Step)
        requires ready { IsReady self.old }
        requires facts { HasFacts self.old }
        requires numbered { is_numbered s.now.kind ≡ true }
        requires allowed { refusal self.old.config (state_of self.old) s.now ≡ None }
        requires room { HasRoom self.old s.now }
        ensures state { state_of self.new ≡ stepped self.old.config (state_of self.old) s.now }
        ensures quiet { IsQuiet self.new.traffic }
        ensures config { self.new.config ≡ self.old.config }
    {
        self.count(s);
        self.make(s.at, s.kind);
    }
}
