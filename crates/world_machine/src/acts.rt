//! Acts of stages.

ghost use Rattle.std.specs.Prelude.{◌≡◌, ℕ, ◌+◌, ◌<◌, ◌≤◌, ◌^◌, Some, None};
ghost use Rattle.owner_turns.specs.Going.{line_of, PlaceFits};
ghost use Rattle.owner_turns.specs.Whole.{ending_of};
ghost use Rattle.rss_machine.specs.Effect.{acts as acts_in, owner_acts, waking_line};
ghost use Rattle.rss_machine.specs.Moves.{counts_act};
ghost use Rattle.rss_machine.specs.State.{owner_at, stage_at};
ghost use Rattle.turn_laws.specs.Turns.{turns, act_turn, lines_in};
ghost use Rattle.world_machine.specs.Acts.{counted, CanAct, CanMake, CanGoOn};
ghost use Rattle.world_machine.specs.Asking.{HoldersThere};
ghost use Rattle.world_machine.specs.Ending.{CanEnd};
ghost use Rattle.world_machine.specs.Turning.{CanProceed};
ghost use Rattle.world_machine.specs.Machine.{state_of};
ghost use Rattle.world_traffic.specs.View.{IsBegun, IsQuiet};

use crate::machine::Machine;
use owner_turns::TurnEnd;
use rss_names::StageId;
use truetime::Interval;

impl Machine {
    // A stage makes one act more.
    pub(crate) fn count_act(&mut self, stage: StageId)
        requires few { (stage_at (state_of self.old) stage).acts + 1 < 2 ^ 32 }
        ensures same { self.new ≡ counted self.old stage }
    {
        self.staging.count_act(stage);
    }

    // The place of the first line of the owner of a number that can wake, if one can.
    fn waking_of(&self, number: u32) -> Option<usize>
        requires holders { HoldersThere (state_of self.now) (lines_in (owner_at (state_of self.now) number).session) }
        ensures line { line_of (owner_at (state_of self.now) number).session result ≡ waking_line (state_of self.now) (lines_in (owner_at (state_of self.now) number).session) }
        ensures place { PlaceFits (owner_at (state_of self.now) number).session result }
    {
        match self.owner(number) {
            Some(owner) => self.waking(owner),
            None => None,
        }
    }

    // An owner goes on by itself: its turn, without its end.
    #[tactic(auto, using(crate::proofs::Turned::turned, crate::proofs::Endings::act_ends))]
    fn turn_by_acting(&mut self, owner: u32, line: Option<usize>, at: Interval) -> TurnEnd
        requires can { CanProceed self.old owner line at }
        ensures turns { state_of self.new ≡ turns (state_of self.old) owner (act_turn self.old.config owner self.old.clock.steps at (line_of (owner_at (state_of self.old) owner).session line) (owner_at (state_of self.old) owner)) }
        ensures ending { ending_of result ≡ (act_turn self.old.config owner self.old.clock.steps at (line_of (owner_at (state_of self.old) owner).session line) (owner_at (state_of self.old) owner)).ending }
        ensures ends { CanEnd self.new owner (ending_of result) }
        ensures begun { IsBegun self.new.traffic.traffic owner }
        ensures quiet { IsQuiet self.new.traffic }
        ensures others { self.new ≡ record self.old { traffic = self.new.traffic } }
    {
        let step = self.clock.steps;
        self.traffic.act(&self.config, owner, step, at, line)
    }

    /// An owner goes on by itself: the time that it waits for has passed, or a line of it wakes.
    #[tactic(auto, using(crate::proofs::Turned::acted))]
    pub(crate) fn act_owner(&mut self, owner: u32, at: Interval)
        requires can { CanGoOn self.old owner at }
        ensures acts { state_of self.new ≡ owner_acts self.old.config (state_of self.old) owner at (owner_at (state_of self.old) owner).works.wait }
        ensures quiet { IsQuiet self.new.traffic }
        ensures config { self.new.config ≡ self.old.config }
    {
        let line = self.waking_of(owner);
        let end = self.turn_by_acting(owner, line, at);
        self.finish(owner, end);
    }

    // A stage goes on whose act was counted.
    fn go_on(&mut self, stage: StageId, owner: Option<u32>, at: Interval)
        requires owned { (o : ℕ) → owner ≡ Some o → CanGoOn self.old o at }
        requires idle { owner ≡ None → CanMake self.old stage at }
        requires quiet { IsQuiet self.old.traffic }
        ensures acts { state_of self.new ≡ acts_in self.old.config (state_of self.old) stage at owner }
        ensures quiet { IsQuiet self.new.traffic }
        ensures config { self.new.config ≡ self.old.config }
    {
        match owner {
            Some(owner) => self.act_owner(owner, at),
            None => self.make_statement(stage, at),
        }
    }

    /// A stage acts: its call or fence statement goes on, or it makes its next statement.
    pub(crate) fn act(&mut self, stage: StageId, at: Interval)
        requires can { CanAct self.old stage at }
        requires quiet { IsQuiet self.old.traffic }
        ensures effect { state_of self.new ≡ acts_in self.old.config (counts_act (state_of self.old) stage) stage at (stage_at (state_of self.old) stage).owner }
        ensures quiet { IsQuiet self.new.traffic }
        ensures config { self.new.config ≡ self.old.config }
    {
        let owner = self.owner_of(stage);
        self.count_act(stage);
        self.go_on(stage, owner, at);
    }
}
