//! What an owner's transaction or snapshot does.

ghost use Rattle.std.specs.Prelude.{◌≡◌, ◌+◌, ◌<◌, ◌≤◌, ◌^◌, [], ◌++◌, length, IfSome, get_or, vec_capacity};
ghost use Rattle.causal_context.specs.Services.{IsService};
ghost use Rattle.rss_tables.specs.Lines.{no_line};
ghost use Rattle.rss_tables.specs.Outs.{slot_shard};
ghost use Rattle.rss_machine.specs.Session.{service_of as service_for};
ghost use Rattle.turn_laws.specs.Turns.{lines_in};
ghost use Rattle.owner_sessions.specs.Boxed.{outs_of, HasBoxRoom};
ghost use Rattle.owner_turns.specs.Whole.{ending_of};
ghost use Rattle.owner_turns.specs.Going.{HasEnd, ReadyToHear, SlotFits, AttemptsFit, IsTimed, timed_answer, timed_hears, shown_in, time_in, timed_wakes, timed_passes, service_in, AimServed};
ghost use Rattle.turn_laws.specs.Turns as turn;
ghost use Rattle.causal_context.specs.Seen.{after_txn};
ghost use Rattle.two_phase.specs.Session.{versions_shown as txn_shown};
ghost use Rattle.snapshot_reads.specs.Session.{versions_shown as snap_shown, writers_skipped as snap_skipped};
ghost use Rattle.owner_turns.specs.Going.{ShownFits};

use crate::aim::Aim;
use crate::ending::TurnEnd;
use crate::owner::Owner;
use crate::spare::Spare;
use owner_sessions::{Doing, Outbox, snap, txn};
use rss_model::Shown;
use rss_names::{Seq, ServiceId, ShardId};
use rss_wire::Reply;
use truetime::Interval;

impl Owner {
    // A transaction or a snapshot hears a reply to a line. True where a new phase begins.
    #[tactic(auto, using(crate::proofs::Timed::lines_hear))]
    pub(crate) fn lines_hear(
        &mut self,
        slot: u8,
        reply: &Reply,
        at: Interval,
        out: &mut Outbox,
    ) -> bool
        requires fits { SlotFits self.old.row.session slot }
        requires slot { slot < 23 }
        requires timed { IsTimed self.old.row.session }
        requires attempts { AttemptsFit self.old.row.session }
        requires shown { ShownFits reply.now self.old.versions self.old.skips self.old.row.session }
        requires room { HasBoxRoom out.old (length self.old.row.works.copy.deps) }
        ensures after { self.new.row ≡ record self.old.row { session = (timed_hears self.old.row.session slot at reply.now).after } }
        ensures outs { out.new.lines.outs ≡ out.old.lines.outs ++ (timed_hears self.old.row.session slot at reply.now).outs }
        ensures anew { result ≡ (timed_hears self.old.row.session slot at reply.now).anew }
        ensures others { out.new ≡ record out.old { lines = out.new.lines } }
    {
        let shard = shard_of(slot);
        match &mut self.doing {
            Doing::Transaction(called, session) => match session.place_of(shard) {
                Some(line) => {
                    let op = txn(&self.kind, *called);
                    session.on_reply(&op, at, line, reply, &mut out.lines)
                }
                None => false,
            },
            Doing::Snapshot(called, session) => match session.place_of(shard) {
                Some(line) => {
                    let op = snap(&self.kind, *called);
                    session.on_reply(&op, line, reply, &mut out.lines)
                }
                None => false,
            },
            Doing::Idle => false,
            Doing::Fixing(_) => false,
            Doing::Register(_) => false,
            Doing::Settling => false,
        }
    }

    // A line of a transaction or a snapshot wakes.
    #[tactic(auto, using(crate::proofs::Timed::lines_wake))]
    pub(crate) fn line_wakes(&mut self, line: usize, out: &mut Outbox)
        requires line { line < length (lines_in self.old.row.session) }
        requires timed { IsTimed self.old.row.session }
        requires room { HasBoxRoom out.old (length self.old.row.works.copy.deps) }
        ensures after { self.new.row ≡ record self.old.row { session = (timed_wakes self.old.row.session (get_or (lines_in self.old.row.session) line no_line)).after } }
        ensures outs { out.new.lines.outs ≡ out.old.lines.outs ++ (timed_wakes self.old.row.session (get_or (lines_in self.old.row.session) line no_line)).outs }
        ensures others { out.new ≡ record out.old { lines = out.new.lines } }
    {
        match &mut self.doing {
            Doing::Transaction(called, session) => {
                let op = txn(&self.kind, *called);
                session.wake(&op, line, &mut out.lines);
            }
            Doing::Snapshot(called, session) => {
                let op = snap(&self.kind, *called);
                session.wake(&op, line, &mut out.lines);
            }
            Doing::Idle => {}
            Doing::Fixing(_) => {}
            Doing::Register(_) => {}
            Doing::Settling => {}
        }
    }

    // The time of a transaction has passed.
    #[tactic(auto, using(crate::proofs::Timed::lines_wake))]
    pub(crate) fn time_passes(&mut self, out: &mut Outbox)
        requires room { HasBoxRoom out.old (length self.old.row.works.copy.deps) }
        ensures after { self.new.row ≡ record self.old.row { session = (timed_passes self.old.row.session).after } }
        ensures outs { out.new.lines.outs ≡ out.old.lines.outs ++ (timed_passes self.old.row.session).outs }
        ensures others { out.new ≡ record out.old { lines = out.new.lines } }
    {
        match &mut self.doing {
            Doing::Transaction(called, session) => {
                let op = txn(&self.kind, *called);
                session.pass(&op, &mut out.lines);
            }
            Doing::Snapshot(_, _) => {}
            Doing::Idle => {}
            Doing::Fixing(_) => {}
            Doing::Register(_) => {}
            Doing::Settling => {}
        }
    }

    // The reply of a transaction or a snapshot, if it has ended.
    #[tactic(auto, using(crate::proofs::Timed::replies))]
    pub(crate) fn timed_reply(&self, spare: &mut Spare) -> TurnEnd
        requires end { HasEnd self.now.row.works.copy spare.old }
        ensures { ending_of result ≡ timed_answer self.now.row.works.copy self.now.row.kind (shown_in self.now.row.session) (time_in self.now.row.session) }
    {
        let Some(time) = self.end_time() else {
            return TurnEnd::Goes;
        };
        let Some(id) = self.service() else {
            return TurnEnd::Goes;
        };
        let shown = self.shown(spare.take_shown());
        match spare.take_context() {
            Some(mut context) => {
                context.after_txn(id, time);
                TurnEnd::Replied(shown, context)
            }
            None => TurnEnd::Goes,
        }
    }

    // The time with which it has ended.
    #[tactic(auto, using(crate::proofs::Timed::no_times))]
    fn end_time(&self) -> Option<u64>
        ensures { result ≡ time_in self.now.row.session }
    {
        match &self.doing {
            Doing::Transaction(_, session) => session.end(),
            Doing::Snapshot(_, session) => session.end(),
            Doing::Idle => None,
            Doing::Fixing(_) => None,
            Doing::Register(_) => None,
            Doing::Settling => None,
        }
    }

    // The service that it calls, if it is a call.
    #[tactic(auto, using(crate::proofs::Timed::services))]
    fn service(&self) -> Option<ServiceId>
        ensures service { result ≡ service_in self.now.row.kind }
        ensures served { IfSome result IsService }
    {
        match self.aim() {
            Aim::Read(key) => Some(key.service),
            Aim::Write(key, _) => Some(key.service),
            Aim::Snap(id) => Some(id),
            Aim::Txn(id) => Some(id),
            Aim::Fence => None,
            Aim::Stub => None,
        }
    }

    // What it was shown, in an empty list with room for it.
    #[tactic(auto, using(crate::proofs::Timed::few_shown))]
    fn shown(&self, list: Vec<Shown>) -> Seq<Shown>
        requires empty { list.items ≡ [] }
        requires room { 8 ≤ vec_capacity list }
        ensures { result ≡ shown_in self.now.row.session }
    {
        match &self.doing {
            Doing::Transaction(called, session) => session.reply(&txn(&self.kind, *called), list),
            Doing::Snapshot(called, session) => session.reply(&snap(&self.kind, *called), list),
            Doing::Idle => Seq::from_vec(list),
            Doing::Fixing(_) => Seq::from_vec(list),
            Doing::Register(_) => Seq::from_vec(list),
            Doing::Settling => Seq::from_vec(list),
        }
    }
}

// The shard of a slot.
fn shard_of(slot: u8) -> ShardId
    requires low { 7 ≤ slot }
    requires high { slot < 23 }
    ensures { result ≡ slot_shard slot }
{
    ShardId::new(slot - 6).unwrap()
}
