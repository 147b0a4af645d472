//! How owners end: the one place where an owner meets its stage, and how stages die.

ghost use Rattle.std.specs.Prelude.{◌≡◌, ◌+◌, ◌<◌, ◌≤◌, length, None};
ghost use Rattle.owner_turns.specs.Whole.{ending_of};
ghost use Rattle.rss_machine.specs.Calls.{replies, fenced_context};
ghost use Rattle.rss_machine.specs.Moves.{ends_fence, ends_stub, loses_stub};
ghost use Rattle.rss_machine.specs.State.{owner_at, stage_at};
ghost use Rattle.rss_model.specs.Cursor.{next_cursor};
ghost use Rattle.turn_laws.specs.Turns.{ends_turn};
ghost use Rattle.world_machine.specs.Ending.{CanEnd, FenceRoom, StubRoom};
ghost use Rattle.world_machine.specs.Machine.{state_of};
ghost use Rattle.world_parts.specs.Parts.{owner_in};
ghost use Rattle.world_traffic.specs.View.{IsBegun};

use crate::machine::Machine;
use causal_context::Context;
use owner_turns::TurnEnd;
use rss_machine::OwnerFate;
use rss_model::Shown;
use rss_names::{CallId, Seq};

impl Machine {
    /// An owner's turn ends: a call replies and its stage goes on behind it; a fence statement or a stub is
    /// done. Takes no memory.
    pub(crate) fn finish(&mut self, owner: u32, end: TurnEnd)
        requires begun { IsBegun self.old.traffic.traffic owner }
        requires ends { CanEnd self.old owner (ending_of end) }
        ensures ends { state_of self.new ≡ ends_turn self.old.config (state_of self.old) owner (ending_of end) }
        ensures outbox { self.new.traffic.outbox ≡ self.old.traffic.outbox }
        ensures config { self.new.config ≡ self.old.config }
    {
        match end {
            TurnEnd::Goes => {}
            TurnEnd::Replied(shown, context) => self.reply(owner, shown, context),
            TurnEnd::FenceOver => self.end_fence(owner),
            TurnEnd::StubOver => self.end_stub(owner),
        }
    }

    // A call replies with this, and leaves its stage this context.
    fn reply(&mut self, owner: u32, shown: Seq<Shown>, context: Context)
        requires begun { IsBegun self.old.traffic.traffic owner }
        requires room { 1 ≤ self.old.staging.room }
        ensures replies { state_of self.new ≡ replies self.old.config (state_of self.old) owner shown context.seen }
        ensures outbox { self.new.traffic.outbox ≡ self.old.traffic.outbox }
        ensures others { self.new ≡ record self.old { staging = self.new.staging; traffic = self.new.traffic } }
    {
        let step = self.clock.steps;
        let stage = self.traffic.stage_of(owner);
        let call = CallId::new(owner).unwrap();
        self.traffic.close(owner, OwnerFate::Ended, step);
        self.staging
            .end_call(&self.config, stage, call, shown, context);
    }

    // A fence statement is done. Its stage has seen what the spare copy says from now on.
    #[tactic(auto, using(crate::proofs::Copies::copy_is, crate::proofs::Copies::copy_there))]
    fn end_fence(&mut self, owner: u32)
        requires begun { IsBegun self.old.traffic.traffic owner }
        requires room { FenceRoom self.old.staging (owner_in self.old.traffic.traffic owner).stage (owner_in self.old.traffic.traffic owner).works.copy }
        ensures ends { state_of self.new ≡ ends_fence (state_of self.old) owner (next_cursor (stage_at (state_of self.old) (owner_at (state_of self.old) owner).stage).cursor) (fenced_context (stage_at (state_of self.old) (owner_at (state_of self.old) owner).stage).context (owner_at (state_of self.old) owner).works.copy) }
        ensures outbox { self.new.traffic.outbox ≡ self.old.traffic.outbox }
        ensures others { self.new ≡ record self.old { staging = self.new.staging; traffic = self.new.traffic } }
    {
        let step = self.clock.steps;
        let stage = self.traffic.stage_of(owner);
        let context = self.staging.take_copy();
        self.traffic.close(owner, OwnerFate::Ended, step);
        self.staging.end_fence(stage, context);
    }

    // A stub is done and fenced: the pipes of its stage end with spare copies of its context, and the exit
    // of its stage is given.
    #[tactic(auto, using(crate::proofs::Endings::stub_ended))]
    fn end_stub(&mut self, owner: u32)
        requires begun { IsBegun self.old.traffic.traffic owner }
        requires room { StubRoom self.old.config self.old.staging (owner_in self.old.traffic.traffic owner).works.copy }
        ensures ends { state_of self.new ≡ ends_stub self.old.config (state_of self.old) owner }
        ensures outbox { self.new.traffic.outbox ≡ self.old.traffic.outbox }
        ensures others { self.new ≡ record self.old { staging = self.new.staging; traffic = self.new.traffic } }
    {
        let step = self.clock.steps;
        let stage = self.traffic.stage_of(owner);
        self.traffic.close_stub(owner, step);
        self.staging.give_exit(&self.config, stage);
    }
}
