//! What an owner hears.

ghost use Rattle.std.specs.Prelude.{◌≡◌, ◌+◌, ◌<◌, ◌≤◌, ◌^◌, [], ◌++◌, length, None};
ghost use Rattle.std.specs.Prelude.{set, Option};
ghost use Rattle.rss_tables.specs.Outs.{slot_replica, slot_shard};
ghost use Rattle.turn_laws.specs.Turns.{hear_turn, session_turn, listening, cleared_turn, fixed_turn, cleared, without_currents};
ghost use Rattle.owner_sessions.specs.Boxed.{outs_of, HasBoxRoom, IsEmptyBox};
ghost use Rattle.owner_sessions.specs.Rounds.{HearsSmallStamps};
ghost use Rattle.owner_turns.specs.Whole.{FewReplicas, ending_of, WorkServed};
ghost use Rattle.owner_turns.specs.Going.{HasStart, HasEnd, ReadyToHear, SlotFits, AttemptsFit, way_of, session_heard, round_end, goes_on_in, sends_in, timed_hears, timed_answer, shown_in, time_in, launches, answer_of, answer_in, HasContext};
ghost use Rattle.owner_turns.specs.declared.way.Way.TheVariants as way;
ghost use Rattle.two_phase.specs.Session.{versions_shown as txn_shown};
ghost use Rattle.snapshot_reads.specs.Session.{versions_shown as snap_shown, writers_skipped as snap_skipped};
ghost use Rattle.causal_context.specs.Seen.{after_read, after_write};
ghost use Rattle.causal_context.specs.Services.{IsService};
ghost use Rattle.turn_laws.specs.Turns as turn;
ghost use Rattle.turn_laws.specs.Turns.{forgets_owner};
ghost use Rattle.owner_turns.specs.Going.{seen_of, IsTimed};
ghost use Rattle.std.specs.Prelude.{◌∷◌};

use crate::aim::Aim;
use crate::ending::TurnEnd;
use crate::moment::Moment;
use crate::owner::Owner;
use crate::spare::Spare;
use crate::way::Way;
use causal_context::Dep;
use owner_sessions::{Doing, Outbox, hear_round, snap, txn};
use rss_model::Shown;
use rss_names::{Key, ReplicaId, Seq, ServiceId, ShardId};
use rss_tables::{RegEnd, RegWork};
use rss_wire::{RegReply, Reply};
use truetime::Interval;

impl Owner {
    /// An owner hears the reply to the current exchange of a slot. What it sends lies in the outbox.
    /// Takes no memory.
    #[tactic(auto, using(crate::proofs::Heard::hear_turns))]
    pub fn hear(
        &mut self,
        slot: u8,
        reply: &Reply,
        now: &Moment<'_>,
        at: Interval,
        spare: &mut Spare,
        out: &mut Outbox,
    ) -> TurnEnd
        requires slot { slot < 23 }
        requires fits { SlotFits self.old.row.session slot }
        requires small { HearsSmallStamps self.old.row.session (slot_replica slot) reply.now }
        requires attempts { AttemptsFit self.old.row.session }
        requires few { FewReplicas now.now.config.now }
        requires ready { ReadyToHear now.now.config.now at reply.now self.old spare.old out.old self.old.row.session }
        requires empty { IsEmptyBox out.old }
        requires room { HasBoxRoom out.old (length self.old.row.works.copy.deps) }
        ensures after { self.new.row ≡ (hear_turn now.now.config.now now.now.number now.now.step at slot reply.now self.old.row).after }
        ensures outs { outs_of out.new ≡ (hear_turn now.now.config.now now.now.number now.now.step at slot reply.now self.old.row).outs }
        ensures fences { out.new.fences.items ≡ (hear_turn now.now.config.now now.now.number now.now.step at slot reply.now self.old.row).fences }
        ensures ending { ending_of result ≡ (hear_turn now.now.config.now now.now.number now.now.step at slot reply.now self.old.row).ending }
    {
        self.listen(slot);
        match self.way() {
            Way::Idle => TurnEnd::Goes,
            Way::Fixing => self.hear_fixing(slot, reply, now, at, spare, out),
            Way::Register => self.hear_register(slot, reply, now, at, spare, out),
            Way::Transaction => self.hear_timed(slot, reply, now, at, spare, out),
            Way::Snapshot => self.hear_timed(slot, reply, now, at, spare, out),
            Way::Settling => self.hear_settling(slot, reply, now, at, spare, out),
        }
    }

    // The current exchange of a slot has ended.
    fn listen(&mut self, slot: u8)
        requires slot { slot < 23 }
        ensures { self.new ≡ record self.old { row = listening slot self.old.row } }
    {
        self.currents.end(slot);
    }

    // What it has under way, in short.
    #[tactic(auto, using(crate::proofs::Heard::settles))]
    pub(crate) fn way(&self) -> Way
        ensures { result ≡ way_of self.now.row.session }
    {
        match self.doing {
            Doing::Idle => Way::Idle,
            Doing::Fixing(_) => Way::Fixing,
            Doing::Register(_) => Way::Register,
            Doing::Transaction(_, _) => Way::Transaction,
            Doing::Snapshot(_, _) => Way::Snapshot,
            Doing::Settling => Way::Settling,
        }
    }

    // A round of dependencies hears a reply.
    #[tactic(auto, using(crate::proofs::Heard::fixings))]
    fn hear_fixing(
        &mut self,
        slot: u8,
        reply: &Reply,
        now: &Moment<'_>,
        at: Interval,
        spare: &mut Spare,
        out: &mut Outbox,
    ) -> TurnEnd
        requires under { way_of self.old.row.session ≡ way.Fixing }
        requires slot { slot < 7 }
        requires small { HearsSmallStamps self.old.row.session (slot_replica slot) reply.now }
        requires few { FewReplicas now.now.config.now }
        requires start { HasStart now.now.config.now at self.old.row.works.copy self.old.row.kind spare.old }
        requires empty { IsEmptyBox out.old }
        requires room { HasBoxRoom out.old (length self.old.row.works.copy.deps) }
        ensures after { self.new.row ≡ (session_turn now.now.config.now now.now.number now.now.step at slot reply.now self.old.row.session self.old.row).after }
        ensures outs { outs_of out.new ≡ (session_turn now.now.config.now now.now.number now.now.step at slot reply.now self.old.row.session self.old.row).outs }
        ensures fences { out.new.fences.items ≡ (session_turn now.now.config.now now.now.number now.now.step at slot reply.now self.old.row.session self.old.row).fences }
        ensures ending { ending_of result ≡ (session_turn now.now.config.now now.now.number now.now.step at slot reply.now self.old.row.session self.old.row).ending }
    {
        let _ = self.hear_rounds(slot, reply, out);
        match self.round_end() {
            Some(_) => {
                self.forget();
                self.fixed(now, at, spare, out)
            }
            None => TurnEnd::Goes,
        }
    }

    // Rounds hear a reply of a replica. True exactly where the next round of a call begins.
    #[tactic(auto, using(crate::proofs::Heard::rounds))]
    fn hear_rounds(&mut self, slot: u8, reply: &Reply, out: &mut Outbox) -> bool
        requires slot { slot < 7 }
        requires small { HearsSmallStamps self.old.row.session (slot_replica slot) reply.now }
        requires room { 7 ≤ out.old.rounds.room }
        ensures after { self.new.row ≡ record self.old.row { session = session_heard self.old.row.session (slot_replica slot) reply.now } }
        ensures anew { result ≡ goes_on_in self.old.row.session (slot_replica slot) reply.now }
        ensures sends { out.new.rounds.requests ≡ out.old.rounds.requests ++ sends_in self.old.row.session (slot_replica slot) reply.now }
        ensures others { out.new ≡ record out.old { rounds = out.new.rounds } }
        ensures left { out.new.rounds.room + length (sends_in self.old.row.session (slot_replica slot) reply.now) ≡ out.old.rounds.room }
    {
        let from = replica_of(slot);
        match &mut self.doing {
            Doing::Fixing(rounds) => hear_round(rounds, from, reply, &mut out.rounds),
            Doing::Register(rounds) => hear_round(rounds, from, reply, &mut out.rounds),
            Doing::Idle => false,
            Doing::Transaction(_, _) => false,
            Doing::Snapshot(_, _) => false,
            Doing::Settling => false,
        }
    }

    // How rounds have ended, if they have.
    #[tactic(auto, using(crate::proofs::Heard::no_rounds))]
    fn round_end(&self) -> Option<RegEnd>
        ensures { result ≡ round_end self.now.row.session }
    {
        match &self.doing {
            Doing::Fixing(rounds) => rounds.result(),
            Doing::Register(rounds) => rounds.result(),
            Doing::Idle => None,
            Doing::Transaction(_, _) => None,
            Doing::Snapshot(_, _) => None,
            Doing::Settling => None,
        }
    }

    // A round of dependencies has reached a majority: it was that of the first work, or the call's own.
    #[tactic(auto, using(crate::proofs::Heard::fixeds))]
    fn fixed(
        &mut self,
        now: &Moment<'_>,
        at: Interval,
        spare: &mut Spare,
        out: &mut Outbox,
    ) -> TurnEnd
        requires few { FewReplicas now.now.config.now }
        requires start { HasStart now.now.config.now at self.old.row.works.copy self.old.row.kind spare.old }
        requires room { HasBoxRoom out.old (length self.old.row.works.copy.deps) }
        requires rounds { out.old.rounds.requests ≡ [] }
        ensures after { self.new.row ≡ (fixed_turn now.now.config.now now.now.number now.now.step at self.old.row self.old.row.works.left).after }
        ensures outs { outs_of out.new ≡ out.old.lines.outs ++ (fixed_turn now.now.config.now now.now.number now.now.step at self.old.row self.old.row.works.left).outs }
        ensures fences { out.new.fences ≡ out.old.fences }
        ensures ending { ending_of result ≡ (fixed_turn now.now.config.now now.now.number now.now.step at self.old.row self.old.row.works.left).ending }
    {
        if !self.works.is_empty() {
            return self.end_work(now, at, spare, out);
        }
        self.clear();
        self.launch(now, at, spare, out);
        TurnEnd::Goes
    }

    // The dependencies of its copy are stored at a majority, and it has nothing under way.
    fn clear(&mut self)
        ensures { self.new.row ≡ cleared self.old.row }
    {
        self.works.clear();
        self.doing = Doing::Idle;
    }

    // A call begins its own session.
    #[tactic(auto, using(crate::proofs::Heard::launchings))]
    fn launch(&mut self, now: &Moment<'_>, at: Interval, spare: &mut Spare, out: &mut Outbox)
        requires few { FewReplicas now.now.config.now }
        requires start { HasStart now.now.config.now at self.old.row.works.copy self.old.row.kind spare.old }
        requires room { HasBoxRoom out.old (length self.old.row.works.copy.deps) }
        requires rounds { out.old.rounds.requests ≡ [] }
        ensures after { self.new.row ≡ (launches now.now.config.now now.now.number now.now.step at self.old.row.kind self.old.row).after }
        ensures outs { outs_of out.new ≡ out.old.lines.outs ++ (launches now.now.config.now now.now.number now.now.step at self.old.row.kind self.old.row).outs }
        ensures fences { out.new.fences ≡ out.old.fences }
    {
        match self.aim() {
            Aim::Read(key) => self.launch_register(now, RegWork::Read(key), key.service, out),
            Aim::Write(key, value) => self.launch_register(
                now,
                RegWork::Write(key, value),
                key.service,
                out,
            ),
            Aim::Snap(id) => self.launch_snap(now, id, at, spare, out),
            Aim::Txn(id) => self.launch_txn(now, id, at, spare, out),
            Aim::Fence => {}
            Aim::Stub => {}
        }
    }

    // The rounds of a call hear a reply.
    #[tactic(auto, using(crate::proofs::Heard::registers))]
    fn hear_register(
        &mut self,
        slot: u8,
        reply: &Reply,
        now: &Moment<'_>,
        at: Interval,
        spare: &mut Spare,
        out: &mut Outbox,
    ) -> TurnEnd
        requires under { way_of self.old.row.session ≡ way.Register }
        requires slot { slot < 7 }
        requires small { HearsSmallStamps self.old.row.session (slot_replica slot) reply.now }
        requires end { HasEnd self.old.row.works.copy spare.old }
        requires empty { IsEmptyBox out.old }
        requires room { HasBoxRoom out.old (length self.old.row.works.copy.deps) }
        ensures after { self.new.row ≡ (session_turn now.now.config.now now.now.number now.now.step at slot reply.now self.old.row.session self.old.row).after }
        ensures outs { outs_of out.new ≡ (session_turn now.now.config.now now.now.number now.now.step at slot reply.now self.old.row.session self.old.row).outs }
        ensures fences { out.new.fences.items ≡ (session_turn now.now.config.now now.now.number now.now.step at slot reply.now self.old.row.session self.old.row).fences }
        ensures ending { ending_of result ≡ (session_turn now.now.config.now now.now.number now.now.step at slot reply.now self.old.row.session self.old.row).ending }
    {
        let _ = now;
        let _ = at;
        let anew = self.hear_rounds(slot, reply, out);
        match self.round_end() {
            Some(end) => {
                self.forget();
                self.answer(end, spare)
            }
            None => {
                if anew {
                    self.forget();
                }
                TurnEnd::Goes
            }
        }
    }

    // How a register call ends.
    #[tactic(auto, using(crate::proofs::Heard::answers))]
    fn answer(&self, end: RegEnd, spare: &mut Spare) -> TurnEnd
        requires end { HasEnd self.now.row.works.copy spare.old }
        ensures { ending_of result ≡ answer_in self.now.row.works.copy self.now.row.session end }
    {
        match &self.doing {
            Doing::Register(rounds) => answer_work(rounds.work(), end, spare),
            Doing::Fixing(_) => TurnEnd::Goes,
            Doing::Idle => TurnEnd::Goes,
            Doing::Transaction(_, _) => TurnEnd::Goes,
            Doing::Snapshot(_, _) => TurnEnd::Goes,
            Doing::Settling => TurnEnd::Goes,
        }
    }

    // A transaction or a snapshot hears a reply.
    #[tactic(auto, using(crate::proofs::Heard::timeds))]
    fn hear_timed(
        &mut self,
        slot: u8,
        reply: &Reply,
        now: &Moment<'_>,
        at: Interval,
        spare: &mut Spare,
        out: &mut Outbox,
    ) -> TurnEnd
        requires slot { slot < 23 }
        requires fits { SlotFits self.old.row.session slot }
        requires under { IsTimed self.old.row.session }
        requires attempts { AttemptsFit self.old.row.session }
        requires ready { ReadyToHear now.now.config.now at reply.now self.old spare.old out.old self.old.row.session }
        requires empty { IsEmptyBox out.old }
        requires room { HasBoxRoom out.old (length self.old.row.works.copy.deps) }
        ensures after { self.new.row ≡ (session_turn now.now.config.now now.now.number now.now.step at slot reply.now self.old.row.session self.old.row).after }
        ensures outs { outs_of out.new ≡ (session_turn now.now.config.now now.now.number now.now.step at slot reply.now self.old.row.session self.old.row).outs }
        ensures fences { out.new.fences.items ≡ (session_turn now.now.config.now now.now.number now.now.step at slot reply.now self.old.row.session self.old.row).fences }
        ensures ending { ending_of result ≡ (session_turn now.now.config.now now.now.number now.now.step at slot reply.now self.old.row.session self.old.row).ending }
    {
        let _ = now;
        let anew = self.lines_hear(slot, reply, at, out);
        self.end_turn(anew, spare)
    }

    // A turn of a transaction or a snapshot ends: where a new phase begins nothing older is current.
    #[tactic(auto, using(crate::proofs::Heard::timed_ends))]
    pub(crate) fn end_turn(&mut self, anew: bool, spare: &mut Spare) -> TurnEnd
        requires end { HasEnd self.old.row.works.copy spare.old }
        ensures after { self.new.row ≡ forgets_owner anew self.old.row }
        ensures ending { ending_of result ≡ timed_answer self.old.row.works.copy self.old.row.kind (shown_in self.old.row.session) (time_in self.old.row.session) }
    {
        if anew {
            self.forget();
        }
        self.timed_reply(spare)
    }
}

// The replica of a slot.
fn replica_of(slot: u8) -> ReplicaId
    requires { slot < 7 }
    ensures { result ≡ slot_replica slot }
{
    ReplicaId::new(slot + 1).unwrap()
}

// How a register call ends, by its work.
fn answer_work(work: &RegWork, end: RegEnd, spare: &mut Spare) -> TurnEnd
    requires served { WorkServed work.now }
    requires shown { 8 ≤ spare.old.shown }
    requires context { HasContext (seen_of spare.old.context) spare.old.context }
    ensures { ending_of result ≡ answer_of (seen_of spare.old.context) work.now end }
{
    match work {
        RegWork::Read(key) => match end {
            RegEnd::Read(cell, dep) => answer_read(*key, cell, dep, spare),
            RegEnd::Written(_) => TurnEnd::Goes,
            RegEnd::Fixed => TurnEnd::Goes,
        },
        RegWork::Write(key, _) => match end {
            RegEnd::Written(_) => answer_write(key.service, spare),
            RegEnd::Read(_, _) => TurnEnd::Goes,
            RegEnd::Fixed => TurnEnd::Goes,
        },
        RegWork::Fix(_) => TurnEnd::Goes,
    }
}

// A read ends.
#[tactic(auto, using(crate::proofs::Timed::answering))]
fn answer_read(key: Key, cell: RegReply, dep: Option<Dep>, spare: &mut Spare) -> TurnEnd
    requires served { IsService key.service }
    requires shown { 8 ≤ spare.old.shown }
    requires context { HasContext (seen_of spare.old.context) spare.old.context }
    ensures { ending_of result ≡ turn.replied (record { key = key; value = cell.value; writer = cell.writer } ∷ []) (after_read (seen_of spare.old.context) key.service dep) }
{
    let mut list = spare.take_shown();
    list.push_reserved(Shown {
        key,
        value: cell.value,
        writer: cell.writer,
    });
    match spare.take_context() {
        Some(mut context) => {
            context.after_read(key.service, dep);
            TurnEnd::Replied(Seq::from_vec(list), context)
        }
        None => TurnEnd::Goes,
    }
}

// A write ends.
#[tactic(auto, using(crate::proofs::Timed::answering))]
fn answer_write(id: ServiceId, spare: &mut Spare) -> TurnEnd
    requires served { IsService id }
    requires shown { 8 ≤ spare.old.shown }
    requires context { HasContext (seen_of spare.old.context) spare.old.context }
    ensures { ending_of result ≡ turn.replied [] (after_write (seen_of spare.old.context) id) }
{
    let list = spare.take_shown();
    match spare.take_context() {
        Some(mut context) => {
            context.after_write(id);
            TurnEnd::Replied(Seq::from_vec(list), context)
        }
        None => TurnEnd::Goes,
    }
}
