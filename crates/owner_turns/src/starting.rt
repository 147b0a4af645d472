//! How a call begins its session.

ghost use Rattle.std.specs.Prelude.{◌≡◌, ◌+◌, ◌<◌, ◌≤◌, [], ◌++◌, length};
ghost use Rattle.pipeline_lang.specs.Config.{replicas_of};
ghost use Rattle.causal_context.specs.Services.{IsService};
ghost use Rattle.rss_tables.specs.RegisterSession.{opening_session};
ghost use Rattle.rss_tables.specs.Losses.{cut_replicas as replicas_cut};
ghost use Rattle.turn_laws.specs.Turns.{fix_turn, register_launch};
ghost use Rattle.owner_sessions.specs.Boxed.{outs_of, HasBoxRoom};
ghost use Rattle.gryff_quorum.specs.Spare.{is_fix};
ghost use Rattle.owner_turns.specs.Whole.{FewReplicas, WorkServed};
ghost use Rattle.owner_turns.specs.Going.{OpensKind, aim_of, launches, enters_first, starts_register};
ghost use Rattle.std.specs.Prelude.{false};
ghost use Rattle.causal_context.specs.LeastTimes.{least_of};
ghost use Rattle.pipeline_lang.specs.Config.{body_of};
ghost use Rattle.owner_turns.specs.declared.aim.Aim.TheVariants as aim;

use crate::moment::Moment;
use crate::owner::Owner;
use crate::spare::Spare;
use gryff_quorum::RegSession;
use owner_sessions::{Called, Doing, Outbox, snap, txn};
use rss_names::{ServiceId, StageId};
use rss_tables::RegWork;
use session_stub::Losses;
use truetime::Interval;

impl Owner {
    // A round begins that stores the copy's dependencies on a service's registers.
    #[tactic(auto, using(crate::proofs::Listed::fixes, crate::proofs::Sent::sending))]
    pub(crate) fn fix(
        &mut self,
        now: &Moment<'_>,
        id: ServiceId,
        spare: &mut Spare,
        out: &mut Outbox,
    )
        requires few { FewReplicas now.now.config.now }
        requires deps { length self.old.row.works.copy.deps ≤ spare.old.deps }
        requires room { HasBoxRoom out.old (length self.old.row.works.copy.deps) }
        requires rounds { out.old.rounds.requests ≡ [] }
        ensures after { self.new.row ≡ (fix_turn now.now.config.now now.now.number id self.old.row).after }
        ensures outs { outs_of out.new ≡ out.old.lines.outs ++ (fix_turn now.now.config.now now.now.number id self.old.row).outs }
        ensures fences { out.new.fences ≡ out.old.fences }
    {
        let deps = spare.deps_of(self.works.copy(), id);
        let session = rounds_for(now, RegWork::Fix(deps), id, &self.losses);
        session.start(&mut out.lists, &mut out.rounds);
        self.doing = Doing::Fixing(session);
    }

    // A register call begins its own rounds.
    #[tactic(auto, using(crate::proofs::Listed::lists_plain, crate::proofs::Sent::sending))]
    pub(crate) fn launch_register(
        &mut self,
        now: &Moment<'_>,
        work: RegWork,
        id: ServiceId,
        out: &mut Outbox,
    )
        requires few { FewReplicas now.now.config.now }
        requires work { is_fix work ≡ false }
        requires served { WorkServed work }
        requires room { 7 ≤ out.old.rounds.room }
        requires rounds { out.old.rounds.requests ≡ [] }
        ensures after { self.new.row ≡ (register_launch now.now.config.now now.now.number now.now.step work id self.old.row).after }
        ensures outs { outs_of out.new ≡ out.old.lines.outs ++ (register_launch now.now.config.now now.now.number now.now.step work id self.old.row).outs }
        ensures fences { out.new.fences ≡ out.old.fences }
    {
        let session = rounds_for(now, work, id, &self.losses);
        session.start(&mut out.lists, &mut out.rounds);
        self.doing = Doing::Register(session);
        self.dates.launched = now.step;
    }
}

impl Owner {
    // A transaction begins, with the session that was made for it.
    #[tactic(auto, using(crate::proofs::Opened::opens_txn, crate::proofs::Timed::told_few, crate::proofs::Sent::sending))]
    pub(crate) fn launch_txn(
        &mut self,
        now: &Moment<'_>,
        id: ServiceId,
        at: Interval,
        spare: &mut Spare,
        out: &mut Outbox,
    )
        requires txn { aim_of self.old.row.kind ≡ aim.Txn id }
        requires opens { OpensKind now.now.config.now at self.old.row.works.copy spare.old self.old.row.kind }
        requires room { HasBoxRoom out.old (length self.old.row.works.copy.deps) }
        requires rounds { out.old.rounds.requests ≡ [] }
        ensures after { self.new.row ≡ (launches now.now.config.now now.now.number now.now.step at self.old.row.kind self.old.row).after }
        ensures outs { outs_of out.new ≡ out.old.lines.outs ++ (launches now.now.config.now now.now.number now.now.step at self.old.row.kind self.old.row).outs }
        ensures fences { out.new.fences ≡ out.old.fences }
    {
        if let Some(session) = spare.take_txn() {
            let called = self.called(now, id);
            let op = txn(&self.kind, called);
            session.start(&op, &mut out.lines);
            self.doing = Doing::Transaction(called, session);
            self.dates.launched = now.step;
        }
    }

    // A snapshot begins, with the session that was made for it.
    #[tactic(auto, using(crate::proofs::Opened::opens_snap, crate::proofs::Timed::told_few, crate::proofs::Sent::sending))]
    pub(crate) fn launch_snap(
        &mut self,
        now: &Moment<'_>,
        id: ServiceId,
        at: Interval,
        spare: &mut Spare,
        out: &mut Outbox,
    )
        requires snap { aim_of self.old.row.kind ≡ aim.Snap id }
        requires opens { OpensKind now.now.config.now at self.old.row.works.copy spare.old self.old.row.kind }
        requires room { HasBoxRoom out.old (length self.old.row.works.copy.deps) }
        requires rounds { out.old.rounds.requests ≡ [] }
        ensures after { self.new.row ≡ (launches now.now.config.now now.now.number now.now.step at self.old.row.kind self.old.row).after }
        ensures outs { outs_of out.new ≡ out.old.lines.outs ++ (launches now.now.config.now now.now.number now.now.step at self.old.row.kind self.old.row).outs }
        ensures fences { out.new.fences ≡ out.old.fences }
    {
        if let Some(session) = spare.take_snap() {
            let called = self.called(now, id);
            let op = snap(&self.kind, called);
            session.start(&op, &mut out.lines);
            self.doing = Doing::Snapshot(called, session);
            self.dates.launched = now.step;
        }
    }

    // What the session of its call is told, where that is of this service.
    pub(crate) fn called(&self, now: &Moment<'_>, id: ServiceId) -> Called
        ensures call { result.call ≡ now.now.number }
        ensures least { result.least ≡ least_of self.now.row.works.copy.least id }
        ensures margin { result.margin ≡ (body_of now.now.config.now self.now.row.stage).earliest_end }
    {
        Called {
            call: now.number,
            least: self.works.copy().least(id),
            margin: margin_of(now, self.stage),
        }
    }

    // It enters its service, where its plan says so.
    pub(crate) fn enter_first(&mut self, step: u32, id: ServiceId, at: Interval)
        requires service { IsService id }
        ensures { self.new ≡ record self.old { row = enters_first step at id self.old.row } }
    {
        if self.works.enters() {
            self.works.enter(id, at.latest());
            self.dates.entered = step;
        }
    }

    // A register call stores the dependencies of its copy first, if there are any.
    #[tactic(auto, using(crate::proofs::Opened::starts_by))]
    pub(crate) fn start_register(
        &mut self,
        now: &Moment<'_>,
        work: RegWork,
        id: ServiceId,
        spare: &mut Spare,
        out: &mut Outbox,
    )
        requires few { FewReplicas now.now.config.now }
        requires work { is_fix work ≡ false }
        requires served { WorkServed work }
        requires deps { length self.old.row.works.copy.deps ≤ spare.old.deps }
        requires room { HasBoxRoom out.old (length self.old.row.works.copy.deps) }
        requires rounds { out.old.rounds.requests ≡ [] }
        ensures after { self.new.row ≡ (starts_register now.now.config.now now.now.number now.now.step work id self.old.row.works.copy.deps self.old.row).after }
        ensures outs { outs_of out.new ≡ out.old.lines.outs ++ (starts_register now.now.config.now now.now.number now.now.step work id self.old.row.works.copy.deps self.old.row).outs }
        ensures fences { out.new.fences ≡ out.old.fences }
    {
        if self.works.copy().deps().is_empty() {
            self.launch_register(now, work, id, out);
        } else {
            self.fix(now, id, spare, out);
        }
    }
}

// How far ahead a transaction of a stage may end at the earliest.
#[tactic(auto, using(crate::proofs::Firsts::bodies))]
fn margin_of(now: &Moment<'_>, stage: StageId) -> u32
    ensures { result ≡ (body_of now.now.config.now stage).earliest_end }
{
    match now
        .config
        .bodies
        .as_slice()
        .get((stage.number() - 1) as usize)
    {
        Some(body) => body.earliest_end,
        None => 0,
    }
}

// Rounds of an owner over the replicas of a service that are not cut off from it.
fn rounds_for(now: &Moment<'_>, work: RegWork, id: ServiceId, losses: &Losses) -> RegSession
    requires few { FewReplicas now.now.config.now }
    ensures { result ≡ opening_session now.now.number work id (replicas_of now.now.config.now id) (replicas_cut now.now.config.now.tries losses.now id) }
{
    let replicas = few_replicas(now, id);
    let cut = losses.cut_replicas(now.config.tries, id);
    RegSession::new(now.number, work, id, replicas, cut)
}

// How many replicas a service has.
#[tactic(auto, using(crate::proofs::Listed::few_of))]
fn few_replicas(now: &Moment<'_>, id: ServiceId) -> u8
    requires few { FewReplicas now.now.config.now }
    ensures same { result ≡ replicas_of now.now.config.now id }
    ensures few { result ≤ 7 }
{
    now.config.replicas(id)
}
