//! Turns of owners, with their ends.

ghost use Rattle.std.specs.Prelude.{◌≡◌, ◌<◌, ◌≤◌, length, Some};
ghost use Rattle.owner_turns.specs.Whole.{ending_of};
ghost use Rattle.rss_machine.specs.Calls.{goes_on_with_works};
ghost use Rattle.rss_machine.specs.Effect.{owner_hears, stub_acts};
ghost use Rattle.rss_machine.specs.Moves.{listens};
ghost use Rattle.rss_machine.specs.State.{owner_at};
ghost use Rattle.turn_laws.specs.Turns.{turns, begin_turn, hear_turn, stub_turn};
ghost use Rattle.world_machine.specs.Ending.{CanEnd};
ghost use Rattle.world_machine.specs.Machine.{state_of};
ghost use Rattle.world_machine.specs.Turning.{CanGoThrough, CanListen, CanStub};
ghost use Rattle.world_traffic.specs.Turned.{said_in};
ghost use Rattle.world_traffic.specs.View.{IsBegun, IsQuiet};

use crate::machine::Machine;
use owner_turns::TurnEnd;
use truetime::Interval;

impl Machine {
    // A call or a fence statement that has begun goes through its works: its turn, without its end.
    #[tactic(auto, using(crate::proofs::Turned::turned, crate::proofs::Endings::begin_ends))]
    fn turn_by_beginning(&mut self, owner: u32, at: Interval) -> TurnEnd
        requires can { CanGoThrough self.old owner at }
        ensures turns { state_of self.new ≡ turns (state_of self.old) owner (begin_turn self.old.config owner self.old.clock.steps at (owner_at (state_of self.old) owner)) }
        ensures ending { ending_of result ≡ (begin_turn self.old.config owner self.old.clock.steps at (owner_at (state_of self.old) owner)).ending }
        ensures ends { CanEnd self.new owner (ending_of result) }
        ensures begun { IsBegun self.new.traffic.traffic owner }
        ensures quiet { IsQuiet self.new.traffic }
        ensures others { self.new ≡ record self.old { traffic = self.new.traffic } }
    {
        let step = self.clock.steps;
        self.traffic.begin(&self.config, owner, step, at)
    }

    /// A call or a fence statement that has begun goes through its works.
    #[tactic(auto, using(crate::proofs::Turned::begun))]
    pub(crate) fn begin_owner(&mut self, owner: u32, at: Interval)
        requires can { CanGoThrough self.old owner at }
        ensures begins { state_of self.new ≡ goes_on_with_works self.old.config (state_of self.old) owner at }
        ensures quiet { IsQuiet self.new.traffic }
        ensures config { self.new.config ≡ self.old.config }
    {
        let end = self.turn_by_beginning(owner, at);
        self.finish(owner, end);
    }

    // An owner hears the reply of the current exchange of a slot: its turn, without its end.
    #[tactic(auto, using(crate::proofs::Turned::turned, crate::proofs::Endings::hear_ends))]
    fn turn_by_hearing(&mut self, owner: u32, slot: u8, message: u32, at: Interval) -> TurnEnd
        requires can { CanListen self.old owner slot message at }
        ensures turns { state_of self.new ≡ turns (state_of self.old) owner (hear_turn self.old.config owner self.old.clock.steps at slot (said_in self.old.traffic.traffic.net message) (owner_at (state_of self.old) owner)) }
        ensures ending { ending_of result ≡ (hear_turn self.old.config owner self.old.clock.steps at slot (said_in self.old.traffic.traffic.net message) (owner_at (state_of self.old) owner)).ending }
        ensures ends { CanEnd self.new owner (ending_of result) }
        ensures begun { IsBegun self.new.traffic.traffic owner }
        ensures quiet { IsQuiet self.new.traffic }
        ensures others { self.new ≡ record self.old { traffic = self.new.traffic } }
    {
        let step = self.clock.steps;
        self.traffic
            .hear(&self.config, owner, step, at, slot, message)
    }

    /// An owner hears the reply of the current exchange of a slot.
    #[tactic(auto, using(crate::proofs::Turned::heard))]
    pub(crate) fn hear(&mut self, owner: u32, slot: u8, message: u32, at: Interval)
        requires can { CanListen self.old owner slot message at }
        ensures hears { state_of self.new ≡ owner_hears self.old.config (listens (state_of self.old) owner slot) owner slot at (said_in self.old.traffic.traffic.net message) (owner_at (state_of self.old) owner).session }
        ensures quiet { IsQuiet self.new.traffic }
        ensures config { self.new.config ≡ self.old.config }
    {
        let end = self.turn_by_hearing(owner, slot, message, at);
        self.finish(owner, end);
    }

    // A stub goes on: its turn, without its end.
    #[tactic(auto, using(crate::proofs::Turned::turned, crate::proofs::Endings::stub_ends))]
    fn turn_by_settling(&mut self, owner: u32, at: Interval) -> TurnEnd
        requires can { CanStub self.old owner at }
        ensures turns { state_of self.new ≡ turns (state_of self.old) owner (stub_turn self.old.config owner self.old.clock.steps at (owner_at (state_of self.old) owner)) }
        ensures ending { ending_of result ≡ (stub_turn self.old.config owner self.old.clock.steps at (owner_at (state_of self.old) owner)).ending }
        ensures ends { CanEnd self.new owner (ending_of result) }
        ensures begun { IsBegun self.new.traffic.traffic owner }
        ensures quiet { IsQuiet self.new.traffic }
        ensures others { self.new ≡ record self.old { traffic = self.new.traffic } }
    {
        let step = self.clock.steps;
        self.traffic.settle(&self.config, owner, step, at)
    }

    /// A stub goes on.
    #[tactic(auto, using(crate::proofs::Turned::settled))]
    pub(crate) fn settle_owner(&mut self, owner: u32, at: Interval)
        requires can { CanStub self.old owner at }
        ensures settles { state_of self.new ≡ stub_acts self.old.config (state_of self.old) owner at (owner_at (state_of self.old) owner).started }
        ensures quiet { IsQuiet self.new.traffic }
        ensures config { self.new.config ≡ self.old.config }
    {
        let end = self.turn_by_settling(owner, at);
        self.finish(owner, end);
    }
}
