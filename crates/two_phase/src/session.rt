//! The session, and what is seen of it.

ghost use Rattle.std.specs.Prelude.{◌≡◌, ◌<◌, ◌≤◌, [], ◌∷◌, length, get_or, false, IfOk, IfSome, IfNone, vec_capacity};
ghost use Rattle.rss_tables.specs.Lines.{no_line, asleep_on as sleeps_on};
ghost use Rattle.rss_tables.specs.TransactionSession.{written_keys, attempt_of as attempt_in, txn_end, has_failed as failed_at, waiting_time as waits_for, shown_reply};
ghost use Rattle.shard_lines.specs.Flat.{AreHomed, IsPlace, has_line, home_in};
ghost use Rattle.two_phase.specs.Session.{txn_of, opening_of};

use crate::txn::Txn;
use pipeline_lang::Expr;
use rss_model::Shown;
use rss_names::{Attempt, Key, Seq, ShardId};
use rss_tables::TxnPhase;
use rss_wire::Holder;
use shard_lines::Lines;
use std::alloc::{AllocError, Global};
use std::marker::Model;

/// A transaction's session. Its operation is kept by its owner, and given to each call. Contracts see
/// what the session keeps: the tables' session is `txn_of` of an operation and that. Lines are named by
/// their place.
pub struct Session {
    pub(crate) k: u32,
    pub(crate) phase: TxnPhase,
    pub(crate) earliest_end: u64,
    pub(crate) lines: Lines,
}

impl Drop for Session {
    fn drop(self) {
        let Session {
            k: _k,
            phase: _phase,
            earliest_end: _earliest_end,
            lines: _lines,
        } = self;
    }
}

impl Model for Session {
    ghost use Rattle.two_phase.specs.Session.{SessionView};

    ghost Value = { SessionView };

    ghost view = { λ s. record { k = s.k; phase = s.phase; earliest_end = s.earliest_end; lines = s.lines.lines; room = s.lines.room } };
}

impl Session {
    /// The session of an operation that has sent nothing yet. `homes` gives the shard of each key by its
    /// index. An `Err` is want of memory.
    pub fn new(alloc: Global, homes: &[ShardId], op: &Txn<'_>) -> Result<Session, AllocError>
        requires some { 0 < length op.now.writes.now }
        requires few_reads { length op.now.reads.now ≤ 8 }
        requires few_writes { length op.now.writes.now ≤ 8 }
        requires read_homes { AreHomed homes.now op.now.reads.now }
        requires written_homes { AreHomed homes.now (written_keys op.now.writes.now) }
        ensures { IfOk result (λ s. txn_of op.now s ≡ opening_of (home_in homes.now) op.now) }
    {
        let written = keys_of(alloc, op.writes)?;
        let lines = Lines::opening(alloc, homes, op.reads, written.as_slice())?;
        Ok(Session {
            k: 1,
            phase: TxnPhase::Locking,
            earliest_end: 0,
            lines,
        })
    }

    /// The attempt under way.
    pub fn attempt(&self, op: &Txn<'_>) -> Attempt
        ensures { result ≡ attempt_in (txn_of op.now self.now) }
    {
        Attempt {
            call: op.call,
            k: self.k,
        }
    }

    /// The place of a shard's line; `None` where the shard has none.
    pub fn place_of(&self, shard: ShardId) -> Option<usize>
        ensures found { IfSome result (λ at. IsPlace self.now.lines at shard) }
        ensures missing { IfNone result (has_line self.now.lines shard ≡ false) }
    {
        self.lines.place_of(shard)
    }

    /// The shard of a line.
    pub fn shard(&self, line: usize) -> ShardId
        requires { line < length self.now.lines }
        ensures { result ≡ (get_or self.now.lines line no_line).shard }
    {
        self.lines.shard(line)
    }

    /// How many lines there are.
    pub fn len(&self) -> usize
        ensures same { result ≡ length self.now.lines }
        ensures few { result ≤ 16 }
    {
        self.lines.len()
    }

    /// What an asleep line waits for; `None` where it is not asleep.
    pub fn asleep_on(&self, line: usize) -> Option<Holder>
        requires { line < length self.now.lines }
        ensures { result ≡ sleeps_on (get_or self.now.lines line no_line).state }
    {
        self.lines.asleep_on(line)
    }

    /// The time that a committed transaction waits for: the greater of its commit time and its earliest
    /// end. `None` in each other phase.
    pub fn waiting_time(&self, op: &Txn<'_>) -> Option<u64>
        ensures { result ≡ waits_for (txn_of op.now self.now) self.now.phase }
    {
        let _ = op;
        match self.phase {
            TxnPhase::Waiting(time) => Some(time.max(self.earliest_end)),
            TxnPhase::Locking => None,
            TxnPhase::Preparing => None,
            TxnPhase::Freeing(_) => None,
            TxnPhase::FreeingLast(_) => None,
            TxnPhase::Deciding(_) => None,
            TxnPhase::Undoing => None,
            TxnPhase::Committed(_) => None,
            TxnPhase::Failed(_) => None,
        }
    }

    /// The time with which the transaction has ended: that of its commit, or of its release where its
    /// guard failed. `None` before the end.
    pub fn end(&self) -> Option<u64>
        ensures { result ≡ txn_end self.now.phase }
    {
        match self.phase {
            TxnPhase::Committed(time) => Some(time),
            TxnPhase::Failed(time) => Some(time),
            TxnPhase::Locking => None,
            TxnPhase::Preparing => None,
            TxnPhase::Freeing(_) => None,
            TxnPhase::FreeingLast(_) => None,
            TxnPhase::Deciding(_) => None,
            TxnPhase::Waiting(_) => None,
            TxnPhase::Undoing => None,
        }
    }

    /// Whether it has ended because its guard failed.
    pub fn has_failed(&self) -> bool
        ensures { result ≡ failed_at self.now.phase }
    {
        matches!(self.phase, TxnPhase::Failed(_))
    }

    /// What was shown of each key that the operation reads, in its order, in an empty list with room
    /// for it. Takes no memory.
    pub fn reply(&self, op: &Txn<'_>, mut list: Vec<Shown>) -> Seq<Shown>
        requires empty { list.items ≡ [] }
        requires room { length op.now.reads.now ≤ vec_capacity list }
        ensures { result ≡ shown_reply op.now.reads.now self.now.lines }
    {
        for key in op.reads {
            list.push(self.shown(*key)).unwrap();
        }
        Seq::from_vec(list)
    }

    // What was shown of a key.
    fn shown(&self, key: Key) -> Shown
        ensures { shown_reply (key ∷ []) self.now.lines ≡ result ∷ [] }
    {
        let version = self.lines.version(key);
        Shown {
            key,
            value: version.value,
            writer: version.writer,
        }
    }
}

// The keys of writes.
fn keys_of(alloc: Global, writes: &[(Key, Expr<u8>)]) -> Result<Vec<Key>, AllocError>
    ensures keys { IfOk result (λ keys. keys.items ≡ written_keys writes.now) }
    ensures many { IfOk result (λ keys. length keys.items ≡ length writes.now) }
{
    writes.iter().map(|write| write.0).collect(alloc)
}
