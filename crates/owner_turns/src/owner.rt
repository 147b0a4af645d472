//! An owner of messages: a call, a fence statement or a stub.

ghost use Rattle.std.specs.Prelude.{◌≡◌, ◌+◌, ◌-◌, ◌<◌, ◌≤◌, ◌^◌, [], true, false, IfSome};
ghost use Rattle.rss_names.specs.declared.service.Target.TheVariants.{Replica};
ghost use Rattle.rss_wire.specs.Messages.{no_message, message_at};
ghost use Rattle.rss_tables.specs.Losses.{losses_of as lost_of, one_more_lost, reaches_tries, cut_replicas as replicas_cut, is_quorum_lost};
ghost use Rattle.rss_tables.specs.Works.{no_works, planned};
ghost use Rattle.rss_machine.specs.Moves.{session_without};
ghost use Rattle.rss_machine.specs.Slots.{slot_in, with_current, without_target};
ghost use Rattle.rss_machine.specs.State.{opening_owner, no_currents};
ghost use Rattle.rss_machine.specs.declared.session.OwnerKind.TheVariants.{Calling, Fencing, Stubbing};
ghost use Rattle.owner_turns.specs.Whole.{KindFits, OpFits};
ghost use Rattle.std.specs.Prelude.{◌++◌, IfOk, OnOk};
ghost use Rattle.causal_context.specs.Seen.{fenced_outside};
ghost use Rattle.rss_machine.specs.Session.{left_unsettled};
ghost use Rattle.rss_tables.specs.Lines.{shards_of as shards_in};
ghost use Rattle.rss_machine.specs.declared.state.OwnerFate.TheVariants.{Ended};

use crate::currents::Currents;
use causal_context::Context;
use owner_sessions::{Doing, txn};
use rss_machine::{Dates, OwnerFate, OwnerKind};
use rss_model::Op;
use rss_names::{Attempt, ReplicaId, Seq, ServiceId, ShardId, StageId, Target};
use rss_tables::FenceWork;
use rss_wire::Net;
use session_stub::{Losses, Plan, Works};
use std::alloc::{AllocError, Global};
use std::marker::Model;

/// An owner of messages: a call, a fence statement or a stub. Contracts see the tables' owner, and for
/// how many fences of a new plan, versions and skipped writers there is room.
pub struct Owner {
    pub(crate) stage: StageId,
    pub(crate) kind: OwnerKind,
    pub(crate) fate: OwnerFate,
    pub(crate) started: bool,
    pub(crate) works: Works,
    pub(crate) doing: Doing,
    pub(crate) currents: Currents,
    pub(crate) losses: Losses,
    pub(crate) dates: Dates,
    pub(crate) stored: bool,
}

// Written out, so that who lets an owner go sees one call and none of its parts.
impl Drop for Owner {
    fn drop(self) {
        let Owner {
            stage: _stage,
            kind: _kind,
            fate: _fate,
            started: _started,
            works: _works,
            doing: _doing,
            currents: _currents,
            losses: _losses,
            dates: _dates,
            stored: _stored,
        } = self;
    }
}

impl Model for Owner {
    ghost use Rattle.owner_sessions.specs.Parts.{session_of, versions_in, skips_in};
    ghost use Rattle.owner_turns.specs.Whole.{OwnerView, OwnerFits, owner_of};

    ghost Value = { OwnerView };

    ghost view = { λ w. record {
      row = owner_of w.stage w.kind w.fate w.started w.works.works (session_of w.kind w.doing) w.currents w.losses w.dates w.stored;
      fences = w.works.room;
      versions = versions_in w.doing;
      skips = skips_in w.doing;
    } };

    ghost invariant = { λ w. OwnerFits w.kind w.doing };
}

impl Owner {
    /// A call of a stage that begins in a step, with a copy of its stage's context and its plan.
    pub fn call(stage: StageId, op: Op, copy: Context, plan: Plan, step: u32) -> Owner
        requires fits { OpFits op }
        ensures { result.row ≡ opening_owner stage (Calling op) true (planned copy.seen plan) step }
    {
        opening(
            stage,
            OwnerKind::Calling(op),
            true,
            Works::planned(copy, plan),
            step,
        )
    }

    /// A fence statement of a stage that begins in a step, with a copy of its stage's context and its
    /// plan.
    pub fn fence(stage: StageId, copy: Context, plan: Plan, step: u32) -> Owner
        ensures { result.row ≡ opening_owner stage Fencing true (planned copy.seen plan) step }
    {
        opening(
            stage,
            OwnerKind::Fencing,
            true,
            Works::planned(copy, plan),
            step,
        )
    }

    /// The stub of a stage that dies in a step, with a copy of its stage's context, and the attempt that
    /// is to be settled, with its shards, by ascending number. It has not started. Takes no memory.
    pub fn stub(
        alloc: Global,
        stage: StageId,
        unsettled: Option<(Attempt, Seq<ShardId>)>,
        copy: Context,
        step: u32,
    ) -> Owner
        requires fits { KindFits (Stubbing unsettled) }
        ensures { result.row ≡ opening_owner stage (Stubbing unsettled) false (no_works copy.seen) step }
    {
        opening(
            stage,
            OwnerKind::Stubbing(unsettled),
            false,
            Works::none(alloc, copy),
            step,
        )
    }

    /// Its stage.
    pub fn stage(&self) -> StageId
        ensures { result ≡ self.now.row.stage }
    {
        self.stage
    }

    /// What it does.
    pub fn kind(&self) -> &OwnerKind
        ensures { result.now ≡ self.now.row.kind }
    {
        &self.kind
    }

    /// How it stands.
    pub fn fate(&self) -> OwnerFate
        ensures { result ≡ self.now.row.fate }
    {
        self.fate
    }

    /// Whether it has started: a stub begins unstarted.
    pub fn has_started(&self) -> bool
        ensures { result ≡ self.now.row.started }
    {
        self.started
    }

    /// Its copy of the context of its stage.
    pub fn copy(&self) -> &Context
        ensures { result.now.seen ≡ self.now.row.works.copy }
    {
        self.works.copy()
    }

    /// The steps in which it began, entered its service, sent its own first round and ended.
    pub fn dates(&self) -> Dates
        ensures { result ≡ self.now.row.dates }
    {
        self.dates
    }

    /// Whether some replica has handled its store.
    pub fn stored(&self) -> bool
        ensures { result ≡ self.now.row.stored }
    {
        self.stored
    }

    /// A replica has handled its store.
    pub fn note_stored(&mut self)
        ensures { self.new ≡ record self.old { row = record self.old.row { stored = true } } }
    {
        self.stored = true;
    }

    /// It is closed with this fate, in this step.
    pub fn close(&mut self, fate: OwnerFate, step: u32)
        ensures { self.new ≡ record self.old { row = record self.old.row { fate = fate; currents = no_currents; dates = record self.old.row.dates { ended = step } } } }
    {
        self.fate = fate;
        self.currents.clear();
        self.dates.ended = step;
    }

    /// A stub is done, in this step: all its fences have ended.
    pub fn close_stub(&mut self, step: u32)
        ensures { self.new ≡ record self.old { row = record self.old.row { fate = Ended; currents = no_currents; dates = record self.old.row.dates { ended = step }; works = record self.old.row.works { copy = fenced_outside self.old.row.works.copy } } } }
    {
        self.close(OwnerFate::Ended, step);
        self.works.fence_outside();
    }

    /// The fences of its works that are left, each with its service.
    pub fn fences(&self) -> &[(ServiceId, FenceWork)]
        ensures { result.now ≡ self.now.row.works.left }
    {
        self.works.left()
    }

    /// The attempt that its transaction leaves behind where its stage dies now, with its shards, by
    /// ascending number; `None` where it has no transaction under way. An `Err` is want of memory.
    #[tactic(auto, using(crate::proofs::Left::leaving))]
    pub fn unsettled(&self, alloc: Global) -> Result<Option<(Attempt, Seq<ShardId>)>, AllocError>
        ensures { IfOk result (λ u. u ≡ left_unsettled self.now.row.session) }
    {
        match &self.doing {
            Doing::Transaction(called, session) => {
                let shards = shards_of(alloc, session)?;
                let attempt = session.attempt(&txn(&self.kind, *called));
                Ok(Some((attempt, shards)))
            }
            Doing::Idle => Ok(None),
            Doing::Fixing(_) => Ok(None),
            Doing::Register(_) => Ok(None),
            Doing::Snapshot(_, _) => Ok(None),
            Doing::Settling => Ok(None),
        }
    }

    /// It awaits the reply to an exchange in a slot; without a slot no reply is awaited.
    pub fn await_reply(&mut self, slot: Option<u8>, exchange: u32)
        ensures { self.new ≡ record self.old { row = record self.old.row { currents = with_current self.old.row.currents slot exchange } } }
    {
        if let Some(slot) = slot {
            self.currents.put(slot, exchange);
        }
    }

    /// No exchange is current any more.
    pub fn forget(&mut self)
        ensures { self.new ≡ record self.old { row = record self.old.row { currents = no_currents } } }
    {
        self.currents.clear();
    }

    /// The slot whose current exchange this is.
    pub fn slot_of(&self, exchange: u32) -> Option<u8>
        ensures slot { result ≡ slot_in self.now.row.currents exchange }
        ensures inside { IfSome result (λ slot. slot < 23) }
    {
        self.currents.slot_of(exchange)
    }

    /// One more message between it and a target is lost. True exactly where this is the loss that
    /// reaches `tries`.
    pub fn count_loss(&mut self, target: Target, tries: u8) -> bool
        requires below { lost_of self.old.row.losses target < 2 ^ 32 - 1 }
        ensures reaches { result ≡ reaches_tries tries self.old.row.losses target }
        ensures counts { self.new ≡ record self.old { row = record self.old.row { losses = one_more_lost self.old.row.losses target } } }
    {
        self.losses.add(target, tries)
    }

    /// How many messages between it and a target were lost.
    pub fn losses_of(&self, target: Target) -> u32
        ensures { result ≡ lost_of self.now.row.losses target }
    {
        self.losses.lost(target)
    }

    /// Whether more of a service's replicas are cut off from it than a majority can spare.
    pub fn quorum_lost(&self, tries: u8, service: ServiceId, replicas: u8) -> bool
        ensures { result ≡ is_quorum_lost tries self.now.row.losses service replicas }
    {
        self.losses.quorum_lost(tries, service, replicas)
    }

    /// A replica is cut off from it: no exchange with it is current, and a round over the replicas of
    /// its service goes on without it. The net gives no message the number 0.
    #[tactic(auto, using(crate::proofs::Kept::cutting))]
    pub fn cut_off(&mut self, net: &Net, service: ServiceId, replica: ReplicaId)
        requires numbered { (message_at net.now.messages 0).envelope ≡ no_message.envelope }
        ensures { self.new ≡ record self.old { row = record self.old.row { currents = without_target net.now.messages (Replica service replica) self.old.row.currents; session = session_without self.old.row.session (Replica service replica) } } }
    {
        self.currents.forget_replica(net, service, replica);
        self.doing.cut(service, replica);
    }
}

// The shards of a transaction's lines, in order.
#[tactic(auto, using(crate::proofs::Left::shards_more))]
fn shards_of(alloc: Global, session: &two_phase::Session) -> Result<Seq<ShardId>, AllocError>
    ensures { IfOk result (λ shards. shards ≡ shards_in session.now.lines) }
{
    let mut shards = Seq::new(alloc);
    add_shards(&mut shards, session)?;
    Ok(shards)
}

// Appends the shards of a transaction's lines, in order.
#[tactic(auto, using(crate::proofs::Left::shards_more))]
fn add_shards(shards: &mut Seq<ShardId>, session: &two_phase::Session) -> Result<(), AllocError>
    ensures { OnOk result (shards.new ≡ shards.old ++ shards_in session.now.lines) }
{
    for line in 0..session.len() {
        shards.push(session.shard(line))?;
    }
    Ok(())
}

// An owner that begins in a step.
fn opening(stage: StageId, kind: OwnerKind, started: bool, works: Works, step: u32) -> Owner
    requires { KindFits kind }
    ensures { result.row ≡ opening_owner stage kind started works.works step }
{
    Owner {
        stage,
        kind,
        fate: OwnerFate::Running,
        started,
        works,
        doing: Doing::Idle,
        currents: Currents::none(),
        losses: Losses::new(),
        dates: Dates {
            begun: step,
            entered: 0,
            launched: 0,
            ended: 0,
        },
        stored: false,
    }
}
