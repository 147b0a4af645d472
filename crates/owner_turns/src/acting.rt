//! What an owner does by itself.

ghost use Rattle.std.specs.Prelude.{◌≡◌, ◌+◌, ◌<◌, ◌≤◌, [], ◌++◌, length, Some, None};
ghost use Rattle.turn_laws.specs.Turns.{act_turn, session_act_turn};
ghost use Rattle.owner_sessions.specs.Boxed.{outs_of, HasBoxRoom, IsEmptyBox};
ghost use Rattle.owner_turns.specs.Whole.{FewReplicas, ending_of};
ghost use Rattle.owner_turns.specs.Going.{ReadyToAct, PlaceFits, HasEnd, IsTimed, line_of, waits_in, wakes_turn};

use crate::ending::TurnEnd;
use crate::moment::Moment;
use crate::owner::Owner;
use crate::spare::Spare;
use crate::way::Way;
use owner_sessions::{Doing, Outbox, txn};
use truetime::Interval;

impl Owner {
    /// An owner goes on by itself: the time that its works wait for has passed, or that of its
    /// transaction has, or a line of its transaction or snapshot wakes, the one of this place, if one
    /// can. What it sends lies in the outbox. Takes no memory.
    #[tactic(auto, using(crate::proofs::Acted::acts))]
    pub fn act(
        &mut self,
        line: Option<usize>,
        now: &Moment<'_>,
        at: Interval,
        spare: &mut Spare,
        out: &mut Outbox,
    ) -> TurnEnd
        requires place { PlaceFits self.old.row.session line }
        requires few { FewReplicas now.now.config.now }
        requires ready { ReadyToAct now.now.config.now at self.old.row.works.copy self.old.row.kind spare.old self.old.row.works.wait self.old.row.session }
        requires empty { IsEmptyBox out.old }
        requires room { HasBoxRoom out.old (length self.old.row.works.copy.deps) }
        ensures after { self.new.row ≡ (act_turn now.now.config.now now.now.number now.now.step at (line_of self.old.row.session line) self.old.row).after }
        ensures outs { outs_of out.new ≡ (act_turn now.now.config.now now.now.number now.now.step at (line_of self.old.row.session line) self.old.row).outs }
        ensures fences { out.new.fences.items ≡ (act_turn now.now.config.now now.now.number now.now.step at (line_of self.old.row.session line) self.old.row).fences }
        ensures ending { ending_of result ≡ (act_turn now.now.config.now now.now.number now.now.step at (line_of self.old.row.session line) self.old.row).ending }
    {
        match self.works.wait() {
            Some(_) => self.end_work(now, at, spare, out),
            None => self.session_acts(line, now, at, spare, out),
        }
    }

    // What is under way goes on by itself.
    #[tactic(auto, using(crate::proofs::Acted::session_acts))]
    fn session_acts(
        &mut self,
        line: Option<usize>,
        now: &Moment<'_>,
        at: Interval,
        spare: &mut Spare,
        out: &mut Outbox,
    ) -> TurnEnd
        requires place { PlaceFits self.old.row.session line }
        requires ready { ReadyToAct now.now.config.now at self.old.row.works.copy self.old.row.kind spare.old None self.old.row.session }
        requires empty { IsEmptyBox out.old }
        requires room { HasBoxRoom out.old (length self.old.row.works.copy.deps) }
        ensures after { self.new.row ≡ (session_act_turn (line_of self.old.row.session line) self.old.row.session self.old.row).after }
        ensures outs { outs_of out.new ≡ (session_act_turn (line_of self.old.row.session line) self.old.row.session self.old.row).outs }
        ensures fences { out.new.fences.items ≡ (session_act_turn (line_of self.old.row.session line) self.old.row.session self.old.row).fences }
        ensures ending { ending_of result ≡ (session_act_turn (line_of self.old.row.session line) self.old.row.session self.old.row).ending }
    {
        let _ = now;
        let _ = at;
        match self.way() {
            Way::Transaction => match self.time_waited() {
                Some(_) => {
                    self.time_passes(out);
                    self.end_turn(false, spare)
                }
                None => self.wake_one(line, spare, out),
            },
            Way::Snapshot => self.wake_one(line, spare, out),
            Way::Idle => TurnEnd::Goes,
            Way::Fixing => TurnEnd::Goes,
            Way::Register => TurnEnd::Goes,
            Way::Settling => TurnEnd::Goes,
        }
    }

    // A line of a transaction or a snapshot wakes, if one can.
    #[tactic(auto, using(crate::proofs::Acted::wakes))]
    fn wake_one(&mut self, line: Option<usize>, spare: &mut Spare, out: &mut Outbox) -> TurnEnd
        requires place { PlaceFits self.old.row.session line }
        requires timed { IsTimed self.old.row.session }
        requires end { HasEnd self.old.row.works.copy spare.old }
        requires empty { IsEmptyBox out.old }
        requires room { HasBoxRoom out.old (length self.old.row.works.copy.deps) }
        ensures after { self.new.row ≡ (wakes_turn (line_of self.old.row.session line) self.old.row).after }
        ensures outs { outs_of out.new ≡ (wakes_turn (line_of self.old.row.session line) self.old.row).outs }
        ensures fences { out.new.fences.items ≡ (wakes_turn (line_of self.old.row.session line) self.old.row).fences }
        ensures ending { ending_of result ≡ (wakes_turn (line_of self.old.row.session line) self.old.row).ending }
    {
        match line {
            Some(line) => {
                self.line_wakes(line, out);
                self.end_turn(false, spare)
            }
            None => TurnEnd::Goes,
        }
    }

    // The time that its transaction waits for.
    #[tactic(auto, using(crate::proofs::Acted::no_waits))]
    pub(crate) fn time_waited(&self) -> Option<u64>
        ensures { result ≡ waits_in self.now.row.session }
    {
        match &self.doing {
            Doing::Transaction(called, session) => session.waiting_time(&txn(&self.kind, *called)),
            Doing::Snapshot(_, _) => None,
            Doing::Idle => None,
            Doing::Fixing(_) => None,
            Doing::Register(_) => None,
            Doing::Settling => None,
        }
    }
}
