//! How an owner goes through its works.

ghost use Rattle.std.specs.Prelude.{◌≡◌, ◌+◌, ◌<◌, ◌≤◌, [], ◌++◌, length};
ghost use Rattle.turn_laws.specs.Turns.{begin_turn, works_over_turn, through_turn, work_turn};
ghost use Rattle.session_stub.specs.Passing.{through_works, next_work};
ghost use Rattle.rss_machine.specs.declared.session.Session.TheVariants.{Idle};
ghost use Rattle.owner_sessions.specs.Boxed.{outs_of, HasBoxRoom, IsEmptyBox};
ghost use Rattle.owner_turns.specs.Whole.{FewReplicas, ending_of};
ghost use Rattle.owner_turns.specs.Going.{HasStart, through_of, aim_of, AimServed, works_ended};

use crate::aim::{Aim, aim_by};
use crate::ending::TurnEnd;
use crate::moment::Moment;
use crate::owner::Owner;
use crate::spare::Spare;
use owner_sessions::{Doing, Outbox};
use rss_tables::RegWork;
use session_stub::Next;
use truetime::Interval;

impl Owner {
    /// An owner goes on with what is left of its works: so a call and a fence statement begin. What it
    /// sends lies in the outbox. Takes no memory.
    #[tactic(auto, using(crate::proofs::Through::begins))]
    pub fn begin(
        &mut self,
        now: &Moment<'_>,
        at: Interval,
        spare: &mut Spare,
        out: &mut Outbox,
    ) -> TurnEnd
        requires idle { self.old.row.session ≡ Idle }
        requires few { FewReplicas now.now.config.now }
        requires start { HasStart now.now.config.now at self.old.row.works.copy self.old.row.kind spare.old }
        requires empty { IsEmptyBox out.old }
        requires room { HasBoxRoom out.old (length self.old.row.works.copy.deps) }
        ensures after { self.new.row ≡ (begin_turn now.now.config.now now.now.number now.now.step at self.old.row).after }
        ensures outs { outs_of out.new ≡ (begin_turn now.now.config.now now.now.number now.now.step at self.old.row).outs }
        ensures fences { out.new.fences.items ≡ (begin_turn now.now.config.now now.now.number now.now.step at self.old.row).fences }
        ensures ending { ending_of result ≡ (begin_turn now.now.config.now now.now.number now.now.step at self.old.row).ending }
    {
        self.go_through(now, at, spare, out)
    }

    // An owner that has nothing under way goes on with what is left of its works.
    #[tactic(auto, using(crate::proofs::Through::passes))]
    pub(crate) fn go_through(
        &mut self,
        now: &Moment<'_>,
        at: Interval,
        spare: &mut Spare,
        out: &mut Outbox,
    ) -> TurnEnd
        requires idle { self.old.row.session ≡ Idle }
        requires few { FewReplicas now.now.config.now }
        requires start { HasStart now.now.config.now at self.old.row.works.copy self.old.row.kind spare.old }
        requires room { HasBoxRoom out.old (length self.old.row.works.copy.deps) }
        requires rounds { out.old.rounds.requests ≡ [] }
        ensures after { self.new.row ≡ (begin_turn now.now.config.now now.now.number now.now.step at self.old.row).after }
        ensures outs { outs_of out.new ≡ out.old.lines.outs ++ (begin_turn now.now.config.now now.now.number now.now.step at self.old.row).outs }
        ensures fences { out.new.fences ≡ out.old.fences }
        ensures ending { ending_of result ≡ (begin_turn now.now.config.now now.now.number now.now.step at self.old.row).ending }
    {
        let next = self.pass(at);
        self.go_on(next, now, at, spare, out)
    }

    // Its works go through the fences that owe nothing.
    fn pass(&mut self, at: Interval) -> Next
        ensures works { self.new ≡ record self.old { row = record self.old.row { works = through_works at self.old.row.works self.old.row.works.left } } }
        ensures next { result ≡ next_work at self.old.row.works.left }
    {
        self.works.pass(at)
    }

    // It does what comes next of its works.
    pub(crate) fn go_on(
        &mut self,
        next: Next,
        now: &Moment<'_>,
        at: Interval,
        spare: &mut Spare,
        out: &mut Outbox,
    ) -> TurnEnd
        requires few { FewReplicas now.now.config.now }
        requires start { HasStart now.now.config.now at self.old.row.works.copy self.old.row.kind spare.old }
        requires room { HasBoxRoom out.old (length self.old.row.works.copy.deps) }
        requires rounds { out.old.rounds.requests ≡ [] }
        ensures after { self.new.row ≡ (through_turn now.now.config.now now.now.number now.now.step at (through_of next self.old.row)).after }
        ensures outs { outs_of out.new ≡ out.old.lines.outs ++ (through_turn now.now.config.now now.now.number now.now.step at (through_of next self.old.row)).outs }
        ensures fences { out.new.fences ≡ out.old.fences }
        ensures ending { ending_of result ≡ (through_turn now.now.config.now now.now.number now.now.step at (through_of next self.old.row)).ending }
    {
        match next {
            Next::Over => self.works_over(now, at, spare, out),
            Next::Waits(_) => TurnEnd::Goes,
            Next::Fix(id) => {
                self.fix(now, id, spare, out);
                TurnEnd::Goes
            }
        }
    }

    // Its works are done: a call enters its service and begins its session, and others are over.
    #[tactic(auto, using(crate::proofs::Through::overs))]
    fn works_over(
        &mut self,
        now: &Moment<'_>,
        at: Interval,
        spare: &mut Spare,
        out: &mut Outbox,
    ) -> TurnEnd
        requires few { FewReplicas now.now.config.now }
        requires start { HasStart now.now.config.now at self.old.row.works.copy self.old.row.kind spare.old }
        requires room { HasBoxRoom out.old (length self.old.row.works.copy.deps) }
        requires rounds { out.old.rounds.requests ≡ [] }
        ensures after { self.new.row ≡ (works_over_turn now.now.config.now now.now.number now.now.step at self.old.row self.old.row.kind).after }
        ensures outs { outs_of out.new ≡ out.old.lines.outs ++ (works_over_turn now.now.config.now now.now.number now.now.step at self.old.row self.old.row.kind).outs }
        ensures fences { out.new.fences ≡ out.old.fences }
        ensures ending { ending_of result ≡ (works_over_turn now.now.config.now now.now.number now.now.step at self.old.row self.old.row.kind).ending }
    {
        match self.aim() {
            Aim::Fence => TurnEnd::FenceOver,
            Aim::Stub => TurnEnd::StubOver,
            Aim::Read(key) => {
                self.enter_first(now.step, key.service, at);
                self.start_register(now, RegWork::Read(key), key.service, spare, out);
                TurnEnd::Goes
            }
            Aim::Write(key, value) => {
                self.enter_first(now.step, key.service, at);
                self.start_register(now, RegWork::Write(key, value), key.service, spare, out);
                TurnEnd::Goes
            }
            Aim::Snap(id) => {
                self.enter_first(now.step, id, at);
                self.launch_snap(now, id, at, spare, out);
                TurnEnd::Goes
            }
            Aim::Txn(id) => {
                self.enter_first(now.step, id, at);
                self.launch_txn(now, id, at, spare, out);
                TurnEnd::Goes
            }
        }
    }

    // What it is about to do.
    #[tactic(auto, using(crate::proofs::Through::aims))]
    pub(crate) fn aim(&self) -> Aim
        ensures aim { result ≡ aim_of self.now.row.kind }
        ensures served { AimServed result }
    {
        aim_by(&self.kind)
    }

    // The first of its works has ended, and it goes on with the others, if there is one.
    #[tactic(auto, using(crate::proofs::Through::works))]
    pub(crate) fn end_work(
        &mut self,
        now: &Moment<'_>,
        at: Interval,
        spare: &mut Spare,
        out: &mut Outbox,
    ) -> TurnEnd
        requires few { FewReplicas now.now.config.now }
        requires start { HasStart now.now.config.now at self.old.row.works.copy self.old.row.kind spare.old }
        requires room { HasBoxRoom out.old (length self.old.row.works.copy.deps) }
        requires rounds { out.old.rounds.requests ≡ [] }
        ensures after { self.new.row ≡ (work_turn now.now.config.now now.now.number now.now.step at self.old.row self.old.row.works.left).after }
        ensures outs { outs_of out.new ≡ out.old.lines.outs ++ (work_turn now.now.config.now now.now.number now.now.step at self.old.row self.old.row.works.left).outs }
        ensures fences { out.new.fences ≡ out.old.fences }
        ensures ending { ending_of result ≡ (work_turn now.now.config.now now.now.number now.now.step at self.old.row self.old.row.works.left).ending }
    {
        if self.works.is_empty() {
            return TurnEnd::Goes;
        }
        self.end_first();
        self.go_through(now, at, spare, out)
    }

    // The first of its works has ended, and it has nothing under way.
    fn end_first(&mut self)
        ensures { self.new.row ≡ works_ended self.old.row self.old.row.works.left }
    {
        self.works.end_first();
        self.doing = Doing::Idle;
    }
}
