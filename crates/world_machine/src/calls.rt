//! Calls and fence statements that begin.

ghost use Rattle.std.specs.Prelude.{◌≡◌, ◌<◌, ◌≤◌, length};
ghost use Rattle.causal_context.specs.Services.{AreServices};
ghost use Rattle.rss_machine.specs.Calls.{goes_on_with_works};
ghost use Rattle.rss_machine.specs.Effect.{begins_call};
ghost use Rattle.rss_machine.specs.Enabling.{next_statement};
ghost use Rattle.rss_machine.specs.Moves.{opens_call, opens_fence};
ghost use Rattle.rss_machine.specs.State.{stage_at};
ghost use Rattle.rss_model.specs.CallStatement.{op_of_statement};
ghost use Rattle.truetime.specs.Reading.{Reading};
ghost use Rattle.world_machine.specs.Acting.{IsActing};
ghost use Rattle.world_machine.specs.Beginning.{NextIs, NextTurn, CanBegin, CanFence, call_owner, fence_owner};
ghost use Rattle.world_machine.specs.Ending.{FenceRoom};
ghost use Rattle.world_machine.specs.Machine.{state_of};
ghost use Rattle.world_machine.specs.Turning.{CanGoThrough};
ghost use Rattle.world_parts.specs.Parts.{stage_in};
ghost use Rattle.world_traffic.specs.View.{IsQuiet};

use crate::machine::Machine;
use rss_model::Op;
use rss_names::{CallId, ServiceId, StageId};
use std::mem;
use truetime::Interval;

impl Machine {
    // A stage begins the call that was made ready. Gives its number.
    #[tactic(auto, using(crate::proofs::Beginning::call_opens))]
    fn open_call(&mut self, stage: StageId, op: Op) -> u32
        requires acting { IsActing self.old stage }
        requires entries { 1 ≤ self.old.staging.room }
        requires owner { NextIs self.old.traffic (call_owner self.old.clock.steps stage (stage_in self.old.staging.staging stage).context op) }
        ensures opens { state_of self.new ≡ opens_call (state_of self.old) stage op }
        ensures number { result ≡ length self.old.traffic.traffic.owners }
        ensures goes { (at : Reading) → NextTurn self.old.config at self.old.traffic → CanGoThrough self.new result at }
        ensures others { self.new ≡ record self.old { staging = self.new.staging; traffic = self.new.traffic } }
    {
        // For their clauses: owners are numbered from 1, and there are sixteen services at most.
        let _begun = self.traffic.begun();
        let _in_order = self.has_used_first(stage);
        let number = self.traffic.open();
        let call = CallId::new(number).unwrap();
        self.staging.begin_call(stage, call, op);
        number
    }

    /// A stage begins the call that was made ready, and goes through its works.
    #[tactic(auto, using(crate::proofs::Beginning::call_begins))]
    pub(crate) fn begin_call(&mut self, stage: StageId, at: Interval)
        requires acting { IsActing self.old stage }
        requires ready { CanBegin self.old stage at }
        ensures begins { state_of self.new ≡ begins_call self.old.config (state_of self.old) stage at (op_of_statement (next_statement self.old.config (state_of self.old) stage) (stage_at (state_of self.old) stage).cursor.variables) }
        ensures quiet { IsQuiet self.new.traffic }
        ensures config { self.new.config ≡ self.old.config }
    {
        let op = mem::replace(&mut self.op, None);
        if let Some(op) = op {
            let number = self.open_call(stage, op);
            self.begin_owner(number, at);
        }
    }

    // A stage begins the fence statement that was made ready. Gives its number.
    #[tactic(auto, using(crate::proofs::Beginning::fence_opens))]
    fn open_fence(&mut self, stage: StageId) -> u32
        requires acting { IsActing self.old stage }
        requires owner { NextIs self.old.traffic (fence_owner self.old.clock.steps stage (stage_in self.old.staging.staging stage).context) }
        requires ends { FenceRoom self.old.staging stage (stage_in self.old.staging.staging stage).context }
        ensures opens { state_of self.new ≡ opens_fence (state_of self.old) stage }
        ensures number { result ≡ length self.old.traffic.traffic.owners }
        ensures goes { (at : Reading) → NextTurn self.old.config at self.old.traffic → CanGoThrough self.new result at }
        ensures others { self.new ≡ record self.old { staging = self.new.staging; traffic = self.new.traffic } }
    {
        // For their clauses: owners are numbered from 1, and there are sixteen services at most.
        let _begun = self.traffic.begun();
        let _in_order = self.has_used_first(stage);
        let number = self.traffic.open();
        self.staging.begin_fence(stage, number);
        number
    }

    /// A stage begins the fence statement that was made ready, and goes through its works.
    pub(crate) fn begin_fence(&mut self, stage: StageId, at: Interval)
        requires acting { IsActing self.old stage }
        requires ready { CanFence self.old stage at }
        ensures begins { state_of self.new ≡ goes_on_with_works self.old.config (opens_fence (state_of self.old) stage) (length (state_of self.old).owners) at }
        ensures quiet { IsQuiet self.new.traffic }
        ensures config { self.new.config ≡ self.old.config }
    {
        let number = self.open_fence(stage);
        self.begin_owner(number, at);
    }

    // Whether a stage used the first service last. The services are in their order, without repeats.
    #[tactic(auto, using(crate::proofs::Beginning::no_services))]
    fn has_used_first(&self, stage: StageId) -> bool
        ensures services { AreServices (stage_in self.now.staging.staging stage).context.last.services }
    {
        match self.stage(stage) {
            Some(found) => found.context().last().has(ServiceId::Txn(1)),
            None => false,
        }
    }
}
