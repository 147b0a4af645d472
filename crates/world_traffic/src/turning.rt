//! Turns of owners: what an owner then is, what it sends, and which fences it plans.

ghost use Rattle.std.specs.Prelude.{◌≡◌, ◌+◌, ◌<◌, ◌≤◌, ◌^◌, length, true, Some, None};
ghost use Rattle.owner_sessions.specs.Boxed.{outs_of};
ghost use Rattle.owner_turns.specs.Going.{PlaceFits, may_start};
ghost use Rattle.owner_turns.specs.Whole.{ending_of};
ghost use Rattle.rss_machine.specs.Moves.{sends, counts_fences};
ghost use Rattle.rss_machine.specs.State.{State};
ghost use Rattle.rss_machine.specs.declared.session.Session.TheVariants.{Idle};
ghost use Rattle.world_parts.specs.Parts.{in_traffic, owner_in};
ghost use Rattle.world_traffic.specs.Turned.{HasTaken, HasTurned, MayTake, MayHear, beginning, hearing, acting, stubbing, said_in};
ghost use Rattle.world_traffic.specs.View.{IsBegun, IsQuiet, CountsFit, HasTurnRoom};

use crate::counting::count_fences;
use crate::traffic::Traffic;
use owner_turns::{Moment, TurnEnd};
use pipeline_lang::Config;
use rss_names::StageId;
use truetime::Interval;

impl Traffic {
    /// An owner that has nothing under way goes through its works: so a call and a fence statement
    /// begin. Gives how its turn ends. Takes no memory.
    pub fn begin(&mut self, config: &Config, number: u32, step: u32, at: Interval) -> TurnEnd
        requires may { MayTake config.now self.old number (beginning config.now number step at self.old.traffic) }
        requires idle { (owner_in self.old.traffic number).session ≡ Idle }
        requires room { HasTurnRoom config.now at self.old number None }
        ensures taken { HasTaken self.old self.new number (beginning config.now number step at self.old.traffic) }
        ensures ending { ending_of result ≡ (beginning config.now number step at self.old.traffic).ending }
    {
        let ending = self.begin_alone(config, number, step, at);
        self.send_turn(number);
        ending
    }

    // The owner begins, and what it sends and plans lies in the outbox.
    #[tactic(auto, using(crate::proofs::Rows::rows, crate::proofs::Ready::begins))]
    fn begin_alone(&mut self, config: &Config, number: u32, step: u32, at: Interval) -> TurnEnd
        requires may { MayTake config.now self.old number (beginning config.now number step at self.old.traffic) }
        requires idle { (owner_in self.old.traffic number).session ≡ Idle }
        requires room { HasTurnRoom config.now at self.old number None }
        ensures turned { HasTurned self.old self.new number (beginning config.now number step at self.old.traffic) }
        ensures ending { ending_of result ≡ (beginning config.now number step at self.old.traffic).ending }
    {
        let now = Moment {
            config,
            number,
            step,
        };
        let owner = &mut self.owners[(number - 1) as usize];
        owner.begin(&now, at, &mut self.spare, &mut self.outbox)
    }

    /// An owner hears what a message says, as the reply of the current exchange of a slot. Gives how its
    /// turn ends. Takes no memory.
    pub fn hear(
        &mut self,
        config: &Config,
        number: u32,
        step: u32,
        at: Interval,
        slot: u8,
        message: u32,
    ) -> TurnEnd
        requires may { MayTake config.now self.old number (hearing config.now number step at slot message self.old.traffic) }
        requires hears { MayHear self.old.traffic number slot message }
        requires room { HasTurnRoom config.now at self.old number (Some (said_in self.old.traffic.net message)) }
        ensures taken { HasTaken self.old self.new number (hearing config.now number step at slot message self.old.traffic) }
        ensures ending { ending_of result ≡ (hearing config.now number step at slot message self.old.traffic).ending }
    {
        let ending = self.hear_alone(config, number, step, at, slot, message);
        self.send_turn(number);
        ending
    }

    // The owner hears, and what it sends and plans lies in the outbox.
    #[tactic(auto, using(crate::proofs::Rows::rows, crate::proofs::Ready::hears))]
    fn hear_alone(
        &mut self,
        config: &Config,
        number: u32,
        step: u32,
        at: Interval,
        slot: u8,
        message: u32,
    ) -> TurnEnd
        requires may { MayTake config.now self.old number (hearing config.now number step at slot message self.old.traffic) }
        requires hears { MayHear self.old.traffic number slot message }
        requires room { HasTurnRoom config.now at self.old number (Some (said_in self.old.traffic.net message)) }
        ensures turned { HasTurned self.old self.new number (hearing config.now number step at slot message self.old.traffic) }
        ensures ending { ending_of result ≡ (hearing config.now number step at slot message self.old.traffic).ending }
    {
        let now = Moment {
            config,
            number,
            step,
        };
        let reply = self.mail.reply(message).unwrap();
        let owner = &mut self.owners[(number - 1) as usize];
        owner.hear(slot, reply, &now, at, &mut self.spare, &mut self.outbox)
    }

    /// An owner goes on by itself: a time that it waited for has passed, or the line of this place wakes,
    /// if one can. Gives how its turn ends. Takes no memory.
    pub fn act(
        &mut self,
        config: &Config,
        number: u32,
        step: u32,
        at: Interval,
        line: Option<usize>,
    ) -> TurnEnd
        requires may { MayTake config.now self.old number (acting config.now number step at line self.old.traffic) }
        requires place { PlaceFits (owner_in self.old.traffic number).session line }
        requires room { HasTurnRoom config.now at self.old number None }
        ensures taken { HasTaken self.old self.new number (acting config.now number step at line self.old.traffic) }
        ensures ending { ending_of result ≡ (acting config.now number step at line self.old.traffic).ending }
    {
        let ending = self.act_alone(config, number, step, at, line);
        self.send_turn(number);
        ending
    }

    // The owner goes on, and what it sends and plans lies in the outbox.
    #[tactic(auto, using(crate::proofs::Rows::rows, crate::proofs::Ready::acts))]
    fn act_alone(
        &mut self,
        config: &Config,
        number: u32,
        step: u32,
        at: Interval,
        line: Option<usize>,
    ) -> TurnEnd
        requires may { MayTake config.now self.old number (acting config.now number step at line self.old.traffic) }
        requires place { PlaceFits (owner_in self.old.traffic number).session line }
        requires room { HasTurnRoom config.now at self.old number None }
        ensures turned { HasTurned self.old self.new number (acting config.now number step at line self.old.traffic) }
        ensures ending { ending_of result ≡ (acting config.now number step at line self.old.traffic).ending }
    {
        let now = Moment {
            config,
            number,
            step,
        };
        let owner = &mut self.owners[(number - 1) as usize];
        owner.act(line, &now, at, &mut self.spare, &mut self.outbox)
    }

    /// The step of a stub: it starts, or a time that its works waited for has passed. Gives how its turn
    /// ends. Takes no memory.
    pub fn settle(&mut self, config: &Config, number: u32, step: u32, at: Interval) -> TurnEnd
        requires may { MayTake config.now self.old number (stubbing config.now number step at self.old.traffic) }
        requires starts { may_start (owner_in self.old.traffic number).works.wait (owner_in self.old.traffic number).session ≡ true }
        requires room { HasTurnRoom config.now at self.old number None }
        ensures taken { HasTaken self.old self.new number (stubbing config.now number step at self.old.traffic) }
        ensures ending { ending_of result ≡ (stubbing config.now number step at self.old.traffic).ending }
    {
        let ending = self.settle_alone(config, number, step, at);
        self.send_turn(number);
        ending
    }

    // The stub takes its step, and what it sends and plans lies in the outbox.
    #[tactic(auto, using(crate::proofs::Rows::rows, crate::proofs::Ready::starts))]
    fn settle_alone(&mut self, config: &Config, number: u32, step: u32, at: Interval) -> TurnEnd
        requires may { MayTake config.now self.old number (stubbing config.now number step at self.old.traffic) }
        requires starts { may_start (owner_in self.old.traffic number).works.wait (owner_in self.old.traffic number).session ≡ true }
        requires room { HasTurnRoom config.now at self.old number None }
        ensures turned { HasTurned self.old self.new number (stubbing config.now number step at self.old.traffic) }
        ensures ending { ending_of result ≡ (stubbing config.now number step at self.old.traffic).ending }
    {
        let now = Moment {
            config,
            number,
            step,
        };
        let owner = &mut self.owners[(number - 1) as usize];
        owner.stub_step(&now, at, &mut self.spare, &mut self.outbox)
    }

    // A turn is taken: the fences that it plans are counted, and what it sends goes to the net.
    #[tactic(auto, using(crate::proofs::Sent::all_sent))]
    fn send_turn(&mut self, number: u32)
        requires begun { IsBegun self.old.traffic number }
        requires room { length (outs_of self.old.outbox) ≤ self.old.messages }
        requires few { length self.old.traffic.net + length (outs_of self.old.outbox) < 2 ^ 32 }
        requires counts { CountsFit (length self.old.outbox.fences.items) self.old.traffic.planned }
        ensures sends { self.new.traffic ≡ in_traffic 0 (λ (s : State). sends (record s { planned = counts_fences self.old.outbox.fences.items s.planned }) number (outs_of self.old.outbox)) self.old.traffic }
        ensures quiet { IsQuiet self.new }
    {
        let stage = self.stage_of(number);
        count_fences(&mut self.planned, self.outbox.fences.as_slice());
        self.outbox.fences.clear();
        self.send_all(number, stage);
    }

    /// The stage of an owner.
    #[tactic(auto, using(crate::proofs::Rows::rows))]
    pub fn stage_of(&self, number: u32) -> StageId
        requires begun { IsBegun self.now.traffic number }
        ensures { result ≡ (owner_in self.now.traffic number).stage }
    {
        self.owners[(number - 1) as usize].stage()
    }
}
