//! What is made before a turn, so that the turn takes no memory.

ghost use Rattle.std.specs.Prelude.{◌≡◌, ◌+◌, ◌-◌, ◌<◌, ◌≤◌, [], ◌++◌, length, max, None, OnOk, vec_len, vec_capacity};
ghost use Rattle.causal_context.specs.Deps.{deps_of};
ghost use Rattle.rss_tables.specs.Lines.{lines_of};
ghost use Rattle.rss_tables.specs.TransactionSession.{written_keys};
ghost use Rattle.shard_lines.specs.Flat.{AreHomed, home_in};
ghost use Rattle.owner_turns.specs.Going.{HasContext, OpensTxn, OpensSnap};

use causal_context::{Context, Dep};
use rss_model::Shown;
use rss_names::{Seq, ServiceId, ShardId, is_same_service};
use snapshot_reads::Snap;
use std::alloc::{AllocError, Global};
use std::marker::Model;
use std::mem;
use truetime::Interval;
use two_phase::Txn;

/// For how many shown values a reply has room.
const MOST_SHOWN: usize = 8;

/// Lists, a session and a copy of a context that a turn may need. Contracts see for how many
/// dependencies and shown values there is room, the sessions, and the copy.
pub struct Spare {
    pub(crate) alloc: Global,
    pub(crate) deps: Vec<Dep>,
    pub(crate) shown: Vec<Shown>,
    pub(crate) txn: Option<two_phase::Session>,
    pub(crate) snap: Option<snapshot_reads::Session>,
    pub(crate) context: Option<Context>,
}

// Written out, so that who lets it go sees one call and none of its parts.
impl Drop for Spare {
    fn drop(self) {
        let Spare {
            alloc: _alloc,
            deps: _deps,
            shown: _shown,
            txn: _txn,
            snap: _snap,
            context: _context,
        } = self;
    }
}

impl Model for Spare {
    ghost use Rattle.std.specs.Prelude.{◌≡◌, [], vec_capacity};
    ghost use Rattle.owner_turns.specs.Going.{SpareView};

    ghost Value = { SpareView };

    ghost view = { λ s. record { deps = vec_capacity s.deps; shown = vec_capacity s.shown; txn = s.txn; snap = s.snap; context = s.context } };

    ghost invariant = { λ s. (s.deps.items ≡ []) × (s.shown.items ≡ []) };
}

impl Spare {
    /// Nothing is made yet. Takes no memory.
    pub fn new(alloc: Global) -> Spare {
        Spare {
            alloc,
            deps: Vec::new(alloc),
            shown: Vec::new(alloc),
            txn: None,
            snap: None,
            context: None,
        }
    }

    // Makes lists for the dependencies of a context and for a reply, and an equal context. An `Err` is
    // want of memory.
    #[tactic(auto, using(crate::proofs::Roomy::contexts))]
    pub(crate) fn make_lists(&mut self, context: &Context) -> Result<(), AllocError>
        ensures deps { OnOk result (length context.now.seen.deps ≤ self.new.deps) }
        ensures shown { OnOk result (8 ≤ self.new.shown) }
        ensures context { OnOk result (HasContext context.now.seen self.new.context) }
    {
        self.deps.reserve(context.deps().len())?;
        self.shown.reserve(MOST_SHOWN)?;
        let mut copy = context.try_clone(self.alloc)?;
        copy.reserve(1)?;
        self.context = Some(copy);
        Ok(())
    }

    // Makes the session of a transaction. An `Err` is want of memory.
    #[tactic(auto, using(crate::proofs::Roomy::txns))]
    pub(crate) fn make_txn(&mut self, homes: &[ShardId], op: &Txn<'_>) -> Result<(), AllocError>
        requires some { 0 < length op.now.writes.now }
        requires few_reads { length op.now.reads.now ≤ 8 }
        requires few_writes { length op.now.writes.now ≤ 8 }
        requires read_homes { AreHomed homes.now op.now.reads.now }
        requires written_homes { AreHomed homes.now (written_keys op.now.writes.now) }
        ensures opens { OnOk result (OpensTxn (lines_of (home_in homes.now) op.now.reads.now (written_keys op.now.writes.now)) self.new.txn) }
        ensures lists { (self.new.deps ≡ self.old.deps) × (self.new.shown ≡ self.old.shown) × (self.new.context ≡ self.old.context) }
    {
        let session = two_phase::Session::new(self.alloc, homes, op)?;
        self.txn = Some(session);
        Ok(())
    }

    // Makes the session of a snapshot. An `Err` is want of memory.
    #[tactic(auto, using(crate::proofs::Roomy::snaps))]
    pub(crate) fn make_snap(
        &mut self,
        homes: &[ShardId],
        op: &Snap<'_>,
        at: Interval,
    ) -> Result<(), AllocError>
        requires some { 0 < length op.now.keys.now }
        requires few { length op.now.keys.now ≤ 8 }
        requires homes { AreHomed homes.now op.now.keys.now }
        ensures opens { OnOk result (OpensSnap (lines_of (home_in homes.now) op.now.keys.now []) (max at.latest op.now.least) self.new.snap) }
        ensures lists { (self.new.deps ≡ self.old.deps) × (self.new.shown ≡ self.old.shown) × (self.new.context ≡ self.old.context) }
    {
        let session = snapshot_reads::Session::new(self.alloc, homes, op, at)?;
        self.snap = Some(session);
        Ok(())
    }

    /// The copy of the context of the owner for which this was made, if it was not used.
    pub fn take_context(&mut self) -> Option<Context>
        ensures taken { result ≡ self.old.context }
        ensures rest { self.new ≡ record self.old { context = None } }
    {
        self.context.take()
    }

    /// The session of a transaction that was made, if it was not used.
    pub(crate) fn take_txn(&mut self) -> Option<two_phase::Session>
        ensures taken { result ≡ self.old.txn }
        ensures rest { self.new ≡ record self.old { txn = None } }
    {
        self.txn.take()
    }

    /// The session of a snapshot that was made, if it was not used.
    pub(crate) fn take_snap(&mut self) -> Option<snapshot_reads::Session>
        ensures taken { result ≡ self.old.snap }
        ensures rest { self.new ≡ record self.old { snap = None } }
    {
        self.snap.take()
    }

    /// An empty list for a reply.
    pub(crate) fn take_shown(&mut self) -> Vec<Shown>
        ensures empty { result.items ≡ [] }
        ensures room { vec_capacity result ≡ self.old.shown }
        ensures context { self.new.context ≡ self.old.context }
    {
        mem::replace(&mut self.shown, Vec::new(self.alloc))
    }

    /// The dependencies of a context on the registers of a service, in a list that was made.
    pub(crate) fn deps_of(&mut self, context: &Context, id: ServiceId) -> Seq<Dep>
        requires room { length context.now.seen.deps ≤ self.old.deps }
        ensures deps { result ≡ deps_of id context.now.seen.deps }
        ensures rest { self.new ≡ record self.old { deps = self.new.deps } }
    {
        let list = mem::replace(&mut self.deps, Vec::new(self.alloc));
        chosen(context.deps(), id, list)
    }
}

// The dependencies on the registers of a service, in an empty list that has room for all.
#[tactic(auto, using(crate::proofs::Chosen::chosen_more))]
fn chosen(deps: &[Dep], id: ServiceId, mut list: Vec<Dep>) -> Seq<Dep>
    requires empty { list.items ≡ [] }
    requires none { vec_len list ≡ 0 }
    requires room { length deps.now ≤ vec_capacity list }
    ensures { result ≡ deps_of id deps.now }
{
    for dep in deps {
        if is_same_service(id, dep.key.service) {
            list.push_reserved(*dep);
        }
    }
    Seq::from_vec(list)
}
