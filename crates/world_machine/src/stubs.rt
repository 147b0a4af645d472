//! Kills, and the steps of stubs.

ghost use Rattle.std.specs.Prelude.{◌≡◌};
ghost use Rattle.rss_machine.specs.Effect.{stub_of_stage};
ghost use Rattle.rss_machine.specs.Moves.{dies};
ghost use Rattle.rss_machine.specs.State.{stage_at};
ghost use Rattle.rss_machine.specs.declared.state.OwnerFate.TheVariants.{Dropped};
ghost use Rattle.rss_model.specs.declared.history.How.TheVariants.{Killed};
ghost use Rattle.world_machine.specs.Dying.{OwnersFit};
ghost use Rattle.world_machine.specs.Machine.{state_of};
ghost use Rattle.world_machine.specs.Rooms.{DeathRoom};
ghost use Rattle.world_machine.specs.Steps.{CanSettle};
ghost use Rattle.world_traffic.specs.View.{IsQuiet};

use crate::machine::Machine;
use rss_machine::OwnerFate;
use rss_model::How;
use rss_names::StageId;
use truetime::Interval;

impl Machine {
    /// A stage is killed.
    pub(crate) fn kill(&mut self, stage: StageId)
        requires owners { OwnersFit self.old stage }
        requires room { DeathRoom self.old stage }
        ensures effect { state_of self.new ≡ dies (state_of self.old) stage Killed Dropped }
        ensures outbox { self.new.traffic.outbox ≡ self.old.traffic.outbox }
        ensures config { self.new.config ≡ self.old.config }
    {
        self.die(stage, How::Killed, OwnerFate::Dropped);
    }

    /// The stub of a stage goes on.
    pub(crate) fn settle(&mut self, stage: StageId, at: Interval)
        requires can { CanSettle self.old stage at }
        requires quiet { IsQuiet self.old.traffic }
        ensures effect { state_of self.new ≡ stub_of_stage self.old.config (state_of self.old) (stage_at (state_of self.old) stage).stub at }
        ensures quiet { IsQuiet self.new.traffic }
        ensures config { self.new.config ≡ self.old.config }
    {
        if let Some(stub) = self.stub_of(stage) {
            self.settle_owner(stub, at);
        }
    }
}
