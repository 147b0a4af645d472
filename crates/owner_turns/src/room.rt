//! What is made before a turn.

ghost use Rattle.std.specs.Prelude.{◌≡◌, ◌+◌, ◌<◌, ◌≤◌, length, IfSome, OnOk};
ghost use Rattle.owner_sessions.specs.Boxed.{HasBoxRoom, HasStubRoom};
ghost use Rattle.owner_turns.specs.Going.{HasStart, HasEnd, ShownFits, HomesFit, IfStarts, FencesFit, OpensKind, may_start as may_start_by};

use crate::aim::Aim;
use crate::moment::Moment;
use crate::owner::Owner;
use crate::spare::Spare;
use crate::way::Way;
use owner_sessions::{Doing, Outbox, snap, txn};
use rss_machine::OwnerKind;
use rss_wire::Reply;
use std::alloc::AllocError;
use truetime::Interval;

/// How many services there can be.
const SERVICES: usize = 16;

impl Owner {
    /// Makes all that a step of this owner with this reading can need: it begins, goes on by itself, or
    /// hears a reply, where one is given. An `Err` is want of memory: the owner is as it was but for its
    /// room, and nothing that was sent is lost.
    pub fn make_room(
        &mut self,
        reply: Option<&Reply>,
        now: &Moment<'_>,
        at: Interval,
        spare: &mut Spare,
        out: &mut Outbox,
    ) -> Result<(), AllocError>
        requires homes { HomesFit now.now.config.now self.old.row.kind }
        ensures same { self.new.row ≡ self.old.row }
        ensures lines { out.new.lines.outs ≡ out.old.lines.outs }
        ensures rounds { out.new.rounds.requests ≡ out.old.rounds.requests }
        ensures fences { out.new.fences.items ≡ out.old.fences.items }
        ensures start { OnOk result (IfStarts (may_start_by self.old.row.works.wait self.old.row.session) now.now.config.now at self.old.row.works.copy self.old.row.kind spare.new) }
        ensures end { OnOk result (HasEnd self.old.row.works.copy spare.new) }
        ensures boxed { OnOk result (HasBoxRoom out.new (length self.old.row.works.copy.deps)) }
        ensures stub { OnOk result (HasStubRoom out.new) }
        ensures plans { OnOk result (FencesFit self.old.row.kind self.new.fences) }
        ensures shown { OnOk result (IfSome reply.entry (λ r. ShownFits r.now self.new.versions self.new.skips self.old.row.session)) }
    {
        self.make_fences()?;
        if let Some(reply) = reply {
            self.make_lines(reply, out)?;
        }
        self.fill(now, at, spare)?;
        out.make_room(self.works.copy().deps().len())
    }

    // Makes room for the fences of a stub.
    fn make_fences(&mut self) -> Result<(), AllocError>
        ensures same { record self.new { fences = self.old.fences } ≡ self.old }
        ensures fences { OnOk result (FencesFit self.old.row.kind self.new.fences) }
    {
        match self.kind {
            OwnerKind::Stubbing(_) => self.works.make_room(SERVICES),
            OwnerKind::Calling(_) => Ok(()),
            OwnerKind::Fencing => Ok(()),
        }
    }

    // Makes room for what a reply shows to a transaction or a snapshot.
    #[tactic(auto, using(crate::proofs::Roomy::lines_made))]
    fn make_lines(&mut self, reply: &Reply, out: &mut Outbox) -> Result<(), AllocError>
        ensures same { self.new.row ≡ self.old.row }
        ensures plans { self.new.fences ≡ self.old.fences }
        ensures shown { OnOk result (ShownFits reply.now self.new.versions self.new.skips self.old.row.session) }
        ensures outs { out.new.lines.outs ≡ out.old.lines.outs }
        ensures others { out.new ≡ record out.old { lines = out.new.lines } }
    {
        match &mut self.doing {
            Doing::Transaction(_, session) => session.make_room_for(reply, &mut out.lines),
            Doing::Snapshot(_, session) => session.make_room_for(reply, &mut out.lines),
            Doing::Idle => Ok(()),
            Doing::Fixing(_) => Ok(()),
            Doing::Register(_) => Ok(()),
            Doing::Settling => Ok(()),
        }
    }

    // Makes lists, a copy of its context, and the session of its call where it may begin it.
    #[tactic(auto, using(crate::proofs::Roomy::starts))]
    fn fill(&self, now: &Moment<'_>, at: Interval, spare: &mut Spare) -> Result<(), AllocError>
        requires homes { HomesFit now.now.config.now self.now.row.kind }
        ensures start { OnOk result (IfStarts (may_start_by self.now.row.works.wait self.now.row.session) now.now.config.now at self.now.row.works.copy self.now.row.kind spare.new) }
        ensures end { OnOk result (HasEnd self.now.row.works.copy spare.new) }
    {
        spare.make_lists(self.works.copy())?;
        if self.may_start() {
            self.make_session(now, at, spare)?;
        }
        Ok(())
    }

    // Whether it may begin a session of its own.
    #[tactic(auto, using(crate::proofs::Roomy::mays))]
    fn may_start(&self) -> bool
        ensures { result ≡ may_start_by self.now.row.works.wait self.now.row.session }
    {
        if self.works.wait().is_some() {
            return true;
        }
        match self.way() {
            Way::Idle => true,
            Way::Fixing => true,
            Way::Settling => true,
            Way::Register => false,
            Way::Transaction => false,
            Way::Snapshot => false,
        }
    }

    // Makes the session that its call can begin.
    #[tactic(auto, using(crate::proofs::Roomy::sessions))]
    fn make_session(
        &self,
        now: &Moment<'_>,
        at: Interval,
        spare: &mut Spare,
    ) -> Result<(), AllocError>
        requires homes { HomesFit now.now.config.now self.now.row.kind }
        ensures opens { OnOk result (OpensKind now.now.config.now at self.now.row.works.copy spare.new self.now.row.kind) }
        ensures lists { (spare.new.deps ≡ spare.old.deps) × (spare.new.shown ≡ spare.old.shown) × (spare.new.context ≡ spare.old.context) }
    {
        match self.aim() {
            Aim::Txn(id) => {
                let op = txn(&self.kind, self.called(now, id));
                spare.make_txn(now.config.homes.as_slice(), &op)
            }
            Aim::Snap(id) => {
                let op = snap(&self.kind, self.called(now, id));
                spare.make_snap(now.config.homes.as_slice(), &op, at)
            }
            Aim::Read(_) => Ok(()),
            Aim::Write(_, _) => Ok(()),
            Aim::Fence => Ok(()),
            Aim::Stub => Ok(()),
        }
    }
}
