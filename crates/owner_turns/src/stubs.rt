//! What a stub does.

ghost use Rattle.std.specs.Prelude.{◌≡◌, ◌+◌, ◌<◌, ◌≤◌, [], ◌++◌, length, vec_len, vec_capacity};
ghost use Rattle.rss_tables.specs.Lines.{tells_decision};
ghost use Rattle.rss_tables.specs.Works.{plan_all as plan_of_all};
ghost use Rattle.turn_laws.specs.Turns.{stub_turn, session_turn, stub_start_turn, plan_turn, settle_turn, planning};
ghost use Rattle.owner_sessions.specs.Boxed.{outs_of, HasBoxRoom, HasStubRoom, IsEmptyBox};
ghost use Rattle.owner_sessions.specs.Parts.{settling_in};
ghost use Rattle.owner_turns.specs.Whole.{FewReplicas, HasToSettle, ending_of};
ghost use Rattle.owner_turns.specs.Going.{HasStart, FencesFit, way_of, settles_in, told_in};
ghost use Rattle.owner_turns.specs.declared.way.Way.TheVariants as way;

use crate::ending::TurnEnd;
use crate::moment::Moment;
use crate::owner::Owner;
use crate::spare::Spare;
use owner_sessions::{Doing, Outbox};
use rss_machine::OwnerKind;
use rss_names::{Attempt, ShardId};
use rss_wire::{Outcome, Reply, Request};
use session_outbox::decision_as;
use session_stub::add_fences;
use truetime::Interval;

impl Owner {
    /// The step of a stub: it starts, or the time that its works wait for has passed. What it sends and
    /// plans lies in the outbox. Takes no memory.
    #[tactic(auto, using(crate::proofs::Stubbed::stubs))]
    pub fn stub_step(
        &mut self,
        now: &Moment<'_>,
        at: Interval,
        spare: &mut Spare,
        out: &mut Outbox,
    ) -> TurnEnd
        requires few { FewReplicas now.now.config.now }
        requires start { HasStart now.now.config.now at self.old.row.works.copy self.old.row.kind spare.old }
        requires fences { FencesFit self.old.row.kind self.old.fences }
        requires empty { IsEmptyBox out.old }
        requires room { HasBoxRoom out.old (length self.old.row.works.copy.deps) }
        requires stub { HasStubRoom out.old }
        ensures after { self.new.row ≡ (stub_turn now.now.config.now now.now.number now.now.step at self.old.row).after }
        ensures outs { outs_of out.new ≡ (stub_turn now.now.config.now now.now.number now.now.step at self.old.row).outs }
        ensures fences { out.new.fences.items ≡ (stub_turn now.now.config.now now.now.number now.now.step at self.old.row).fences }
        ensures ending { ending_of result ≡ (stub_turn now.now.config.now now.now.number now.now.step at self.old.row).ending }
    {
        if self.started {
            return self.end_work(now, at, spare, out);
        }
        match self.kind {
            OwnerKind::Stubbing(Some(_)) => {
                self.settle(out);
                TurnEnd::Goes
            }
            OwnerKind::Stubbing(None) => self.plan_all(now, at, spare, out),
            OwnerKind::Calling(_) => TurnEnd::Goes,
            OwnerKind::Fencing => TurnEnd::Goes,
        }
    }

    // A stub asks the coordinator of its attempt to decide without commit.
    #[tactic(auto, using(crate::proofs::Stubbed::settling))]
    fn settle(&mut self, out: &mut Outbox)
        requires settles { HasToSettle self.old.row.kind }
        requires room { 0 < out.old.lines.room }
        ensures after { self.new.row ≡ (settles_in self.old.row.kind self.old.row).after }
        ensures outs { out.new.lines.outs ≡ out.old.lines.outs ++ (settles_in self.old.row.kind self.old.row).outs }
        ensures others { out.new ≡ record out.old { lines = out.new.lines } }
    {
        match &self.kind {
            OwnerKind::Stubbing(Some((attempt, shards))) => {
                let request = Request::Decide {
                    attempt: *attempt,
                    commit: false,
                    time: 0,
                };
                out.lines.ask(shards.as_slice()[0], request);
            }
            OwnerKind::Stubbing(None) => {}
            OwnerKind::Calling(_) => {}
            OwnerKind::Fencing => {}
        }
        self.doing = Doing::Settling;
        self.started = true;
    }

    // A stub plans the fences of its copy, and goes through them.
    #[tactic(auto, using(crate::proofs::Stubbed::plans))]
    fn plan_all(
        &mut self,
        now: &Moment<'_>,
        at: Interval,
        spare: &mut Spare,
        out: &mut Outbox,
    ) -> TurnEnd
        requires few { FewReplicas now.now.config.now }
        requires start { HasStart now.now.config.now at self.old.row.works.copy self.old.row.kind spare.old }
        requires fences { 16 ≤ self.old.fences }
        requires none { out.old.fences.items ≡ [] }
        requires boxed { vec_len out.old.fences + 16 ≤ vec_capacity out.old.fences }
        requires room { HasBoxRoom out.old (length self.old.row.works.copy.deps) }
        requires rounds { out.old.rounds.requests ≡ [] }
        ensures after { self.new.row ≡ (plan_turn now.now.config.now now.now.number now.now.step at self.old.row).after }
        ensures outs { outs_of out.new ≡ out.old.lines.outs ++ (plan_turn now.now.config.now now.now.number now.now.step at self.old.row).outs }
        ensures fences { out.new.fences.items ≡ (plan_turn now.now.config.now now.now.number now.now.step at self.old.row).fences }
        ensures ending { ending_of result ≡ (plan_turn now.now.config.now now.now.number now.now.step at self.old.row).ending }
    {
        self.plan_fences(out);
        self.go_through(now, at, spare, out)
    }

    // A stub plans the fences of its copy.
    #[tactic(auto, using(crate::proofs::Stubbed::planned_all))]
    fn plan_fences(&mut self, out: &mut Outbox)
        requires fences { 16 ≤ self.old.fences }
        requires none { out.old.fences.items ≡ [] }
        requires boxed { vec_len out.old.fences + 16 ≤ vec_capacity out.old.fences }
        ensures after { self.new.row ≡ planning self.old.row }
        ensures fences { out.new.fences.items ≡ (plan_of_all self.old.row.works.copy).fences }
        ensures others { out.new ≡ record out.old { fences = out.new.fences } }
    {
        add_fences(&mut out.fences, self.works.copy(), None).unwrap();
        self.works.plan(out.fences.as_slice());
        self.doing = Doing::Idle;
        self.started = true;
    }

    // A stub hears how its attempt is decided: it tells the shards, and plans its fences.
    #[tactic(auto, using(crate::proofs::Stubbed::settled))]
    pub(crate) fn hear_settling(
        &mut self,
        slot: u8,
        reply: &Reply,
        now: &Moment<'_>,
        at: Interval,
        spare: &mut Spare,
        out: &mut Outbox,
    ) -> TurnEnd
        requires under { way_of self.old.row.session ≡ way.Settling }
        requires few { FewReplicas now.now.config.now }
        requires start { HasStart now.now.config.now at self.old.row.works.copy self.old.row.kind spare.old }
        requires fences { FencesFit self.old.row.kind self.old.fences }
        requires empty { IsEmptyBox out.old }
        requires room { HasBoxRoom out.old (length self.old.row.works.copy.deps) }
        requires stub { HasStubRoom out.old }
        ensures after { self.new.row ≡ (session_turn now.now.config.now now.now.number now.now.step at slot reply.now self.old.row.session self.old.row).after }
        ensures outs { outs_of out.new ≡ (session_turn now.now.config.now now.now.number now.now.step at slot reply.now self.old.row.session self.old.row).outs }
        ensures fences { out.new.fences.items ≡ (session_turn now.now.config.now now.now.number now.now.step at slot reply.now self.old.row.session self.old.row).fences }
        ensures ending { ending_of result ≡ (session_turn now.now.config.now now.now.number now.now.step at slot reply.now self.old.row.session self.old.row).ending }
    {
        let _ = slot;
        match reply {
            Reply::Decided { outcome } => {
                self.tell(*outcome, out);
                self.plan_all(now, at, spare, out)
            }
            Reply::Wounded => TurnEnd::Goes,
            Reply::Granted { .. } => TurnEnd::Goes,
            Reply::Wait { .. } => TurnEnd::Goes,
            Reply::Prepared { .. } => TurnEnd::Goes,
            Reply::Done => TurnEnd::Goes,
            Reply::Outcome { .. } => TurnEnd::Goes,
            Reply::Open => TurnEnd::Goes,
            Reply::Released => TurnEnd::Goes,
            Reply::Blocked { .. } => TurnEnd::Goes,
            Reply::Values { .. } => TurnEnd::Goes,
            Reply::Fixed => TurnEnd::Goes,
            Reply::Held { .. } => TurnEnd::Goes,
            Reply::Stored => TurnEnd::Goes,
        }
    }

    // A stub tells its shards how its attempt is decided.
    #[tactic(auto, using(crate::proofs::Stubbed::settling_fences))]
    fn tell(&self, outcome: Outcome, out: &mut Outbox)
        requires under { way_of self.now.row.session ≡ way.Settling }
        requires fences { FencesFit self.now.row.kind self.now.fences }
        requires room { 48 ≤ out.old.lines.room }
        ensures outs { out.new.lines.outs ≡ out.old.lines.outs ++ told_in self.now.row.session outcome }
        ensures room { 32 ≤ out.new.lines.room }
        ensures keys { out.new.lines.keys ≡ out.old.lines.keys }
        ensures writes { out.new.lines.writes ≡ out.old.lines.writes }
        ensures others { out.new ≡ record out.old { lines = out.new.lines } }
        ensures stub { 16 ≤ self.now.fences }
    {
        match self.doing {
            Doing::Settling => self.tell_shards(outcome, out),
            Doing::Idle => {}
            Doing::Fixing(_) => {}
            Doing::Register(_) => {}
            Doing::Transaction(_, _) => {}
            Doing::Snapshot(_, _) => {}
        }
    }

    // A stub tells the shards of the attempt that it has to settle.
    #[tactic(auto, using(crate::proofs::Stubbed::telling))]
    fn tell_shards(&self, outcome: Outcome, out: &mut Outbox)
        requires room { 48 ≤ out.old.lines.room }
        ensures outs { out.new.lines.outs ≡ out.old.lines.outs ++ told_in (settling_in self.now.row.kind) outcome }
        ensures room { 32 ≤ out.new.lines.room }
        ensures keys { out.new.lines.keys ≡ out.old.lines.keys }
        ensures writes { out.new.lines.writes ≡ out.old.lines.writes }
        ensures others { out.new ≡ record out.old { lines = out.new.lines } }
    {
        match &self.kind {
            OwnerKind::Stubbing(Some((attempt, shards))) => tell_all(
                *attempt,
                outcome,
                shards.as_slice(),
                &mut out.lines,
            ),
            OwnerKind::Stubbing(None) => {}
            OwnerKind::Calling(_) => {}
            OwnerKind::Fencing => {}
        }
    }
}

// Tells shards the decision of an attempt.
#[tactic(auto, using(crate::proofs::Stubbed::tells))]
fn tell_all(
    attempt: Attempt,
    outcome: Outcome,
    shards: &[ShardId],
    out: &mut session_outbox::Outbox,
)
    requires few { length shards.now ≤ 16 }
    requires room { 48 ≤ out.old.room }
    ensures outs { out.new.outs ≡ out.old.outs ++ tells_decision attempt outcome shards.now }
    ensures room { 32 ≤ out.new.room }
    ensures keys { out.new.keys ≡ out.old.keys }
    ensures writes { out.new.writes ≡ out.old.writes }
{
    for shard in shards {
        out.tell(*shard, decision_as(attempt, outcome));
    }
}
