//! How stages die, and how stubs are cut off.

ghost use Rattle.std.specs.Prelude.{◌≡◌, ◌+◌, ◌<◌, ◌≤◌, ◌^◌, length, Some, None};
ghost use Rattle.rss_machine.specs.Effect.{target_lost};
ghost use Rattle.rss_machine.specs.Moves.{dies, loses_stub};
ghost use Rattle.rss_machine.specs.State.{owner_at, stage_at};
ghost use Rattle.rss_machine.specs.declared.state.OwnerFate.TheVariants.{CutOff};
ghost use Rattle.world_machine.specs.Dying.{OwnersFit};
ghost use Rattle.world_machine.specs.Machine.{state_of};
ghost use Rattle.world_machine.specs.Rooms.{DeathRoom};
ghost use Rattle.world_parts.specs.Halves.{closes_left};
ghost use Rattle.world_parts.specs.Parts.{stage_in};
ghost use Rattle.world_traffic.specs.View.{IsBegun};

use crate::machine::Machine;
use rss_machine::OwnerFate;
use rss_model::How;
use rss_names::{StageId, Target};

impl Machine {
    /// A stage dies: its owner is closed with this fate, and the stub that was made ready begins. Takes no
    /// memory.
    #[tactic(auto, using(crate::proofs::Dying::died_so))]
    pub(crate) fn die(&mut self, stage: StageId, how: How, fate: OwnerFate)
        requires owners { OwnersFit self.old stage }
        requires room { DeathRoom self.old stage }
        ensures dies { state_of self.new ≡ dies (state_of self.old) stage how fate }
        ensures outbox { self.new.traffic.outbox ≡ self.old.traffic.outbox }
        ensures others { self.new ≡ record self.old { staging = self.new.staging; traffic = self.new.traffic } }
    {
        self.close_owner(stage, fate);
        let stub = self.traffic.open();
        self.staging.die(stage, how, stub);
    }

    // The owner of a stage is closed, if it has one.
    #[tactic(auto, using(crate::proofs::Dying::planned_left, crate::proofs::Dying::many_left))]
    fn close_owner(&mut self, stage: StageId, fate: OwnerFate)
        requires owners { OwnersFit self.old stage }
        ensures closes { self.new.traffic.traffic ≡ closes_left self.old.clock.steps self.old.traffic.traffic (stage_in self.old.staging.staging stage).owner fate }
        ensures free { self.new.traffic.free ≡ self.old.traffic.free }
        ensures next { self.new.traffic.next ≡ self.old.traffic.next }
        ensures planned { self.new.traffic.traffic.planned ≡ self.old.traffic.traffic.planned }
        ensures many { length self.new.traffic.traffic.owners ≡ length self.old.traffic.traffic.owners }
        ensures outbox { self.new.traffic.outbox ≡ self.old.traffic.outbox }
        ensures others { self.new ≡ record self.old { traffic = self.new.traffic } }
    {
        let step = self.clock.steps;
        if let Some(owner) = self.owner_of(stage) {
            self.traffic.close(owner, fate, step);
        }
    }

    // A stub is cut off from a target: the pipes of its stage end bare.
    #[tactic(auto, using(crate::proofs::Dying::stub_lost))]
    pub(crate) fn lose_stub(&mut self, owner: u32, target: Target)
        requires begun { IsBegun self.old.traffic.traffic owner }
        requires pipes { length self.old.config.pipe_ends ≤ 16 }
        ensures loses { state_of self.new ≡ loses_stub self.old.config (state_of self.old) owner target }
        ensures outbox { self.new.traffic.outbox ≡ self.old.traffic.outbox }
        ensures others { self.new ≡ record self.old { staging = self.new.staging; traffic = self.new.traffic } }
    {
        let step = self.clock.steps;
        let stage = self.traffic.stage_of(owner);
        self.traffic.close(owner, OwnerFate::CutOff(target), step);
        self.staging.cut_pipes(&self.config, stage);
    }
}
