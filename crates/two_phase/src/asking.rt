//! What a session asks its shards for in each phase.

ghost use Rattle.std.specs.Prelude.{◌≡◌, ◌+◌, ◌<◌, ◌≤◌, ◌∷◌, [], ◌++◌, length, get_or, vec_capacity};
ghost use Rattle.rss_tables.specs.Lines.{no_line, line_at, coordinator_of, shards_of, tells_decision, decision_request};
ghost use Rattle.rss_tables.specs.Locks.{has_key as is_among};
ghost use Rattle.rss_tables.specs.Outs.{told};
ghost use Rattle.rss_tables.specs.TransactionSession.{txn_request, asks_lines, txn_starts, computed, writes_on};
ghost use Rattle.two_phase.specs.Session.{txn_of, key_lists, write_lists, others_of, has_lines};

use crate::formulas::formula_value;
use crate::session::Session;
use crate::txn::Txn;
use rss_names::{Attempt, Key, Seq, ShardId, is_same_key};
use rss_tables::TxnPhase;
use rss_wire::{Outcome, Request};
use session_outbox::{Outbox, decision_as};

impl Session {
    /// Asks all shards for the locks: called once, before any reply. Takes no memory.
    pub fn start(&self, op: &Txn<'_>, out: &mut Outbox)
        requires few { length op.now.writes.now ≤ 8 }
        requires room { 16 ≤ out.old.room }
        requires keys { 32 ≤ out.old.keys }
        requires writes { 16 ≤ out.old.writes }
        ensures outs { out.new.outs ≡ out.old.outs ++ (txn_starts (txn_of op.now self.now)).outs }
    {
        self.ask_all(op, out);
    }

    // The request of the phase to a line.
    fn request(&self, op: &Txn<'_>, at: usize, out: &mut Outbox) -> Request
        requires at { at < length self.now.lines }
        requires few { length op.now.writes.now ≤ 8 }
        requires keys { key_lists self.now.phase ≤ out.old.keys }
        requires writes { write_lists self.now.phase ≤ out.old.writes }
        ensures request { result ≡ txn_request (txn_of op.now self.now) self.now.phase (get_or self.now.lines at no_line) }
        ensures outs { out.new.outs ≡ out.old.outs }
        ensures room { out.new.room ≡ out.old.room }
        ensures keys { out.new.keys + key_lists self.now.phase ≡ out.old.keys }
        ensures writes { out.new.writes + write_lists self.now.phase ≡ out.old.writes }
    {
        let attempt = self.attempt(op);
        match self.phase {
            TxnPhase::Locking => Request::Lock {
                attempt,
                coordinator: self.lines.coordinator(),
                reads: out.keys(self.lines.reads(at)),
                writes: out.keys(self.lines.writes(at)),
            },
            TxnPhase::Preparing => Request::Prepare {
                attempt,
                least: op.least,
                earliest_end: self.earliest_end,
                writes: self.written(op, at, out.writes()),
            },
            TxnPhase::Freeing(time) => Request::Release {
                attempt,
                time,
                last: false,
            },
            TxnPhase::FreeingLast(time) => Request::Release {
                attempt,
                time,
                last: true,
            },
            TxnPhase::Deciding(time) => Request::Decide {
                attempt,
                commit: true,
                time,
            },
            TxnPhase::Undoing => Request::Decide {
                attempt,
                commit: false,
                time: 0,
            },
            TxnPhase::Waiting(_) | TxnPhase::Committed(_) | TxnPhase::Failed(_) =>
                Request::Inquire { attempt },
        }
    }

    // The writes of a line, with their values, in an empty list.
    fn written(&self, op: &Txn<'_>, at: usize, mut list: Vec<(Key, u64)>) -> Seq<(Key, u64)>
        requires at { at < length self.now.lines }
        requires few { length op.now.writes.now ≤ 8 }
        requires empty { list.items ≡ [] }
        requires room { 8 ≤ vec_capacity list }
        ensures { result ≡ writes_on (get_or self.now.lines at no_line) (computed (txn_of op.now self.now)) }
    {
        let mine = self.lines.writes(at);
        for write in op.writes {
            if has_key(mine, write.0) {
                let value = formula_value(&write.1, op.reads, &self.lines);
                list.push((write.0, value)).unwrap();
            }
        }
        Seq::from_vec(list)
    }

    /// Asks a line for the phase.
    pub(crate) fn ask(&self, op: &Txn<'_>, at: usize, out: &mut Outbox)
        requires at { at < length self.now.lines }
        requires few { length op.now.writes.now ≤ 8 }
        requires room { 0 < out.old.room }
        requires keys { key_lists self.now.phase ≤ out.old.keys }
        requires writes { write_lists self.now.phase ≤ out.old.writes }
        ensures outs { out.new.outs ≡ out.old.outs ++ asks_lines (txn_of op.now self.now) (get_or self.now.lines at no_line ∷ []) }
        ensures room { out.new.room + 1 ≡ out.old.room }
        ensures keys { out.new.keys + key_lists self.now.phase ≡ out.old.keys }
        ensures writes { out.new.writes + write_lists self.now.phase ≡ out.old.writes }
    {
        let request = self.request(op, at, out);
        out.ask(self.lines.shard(at), request);
    }

    /// Asks all lines for the phase.
    #[tactic(auto, using(crate::proofs::Shapes::asks_more))]
    pub(crate) fn ask_all(&self, op: &Txn<'_>, out: &mut Outbox)
        requires few { length op.now.writes.now ≤ 8 }
        requires room { 16 ≤ out.old.room }
        requires keys { 32 ≤ out.old.keys }
        requires writes { 16 ≤ out.old.writes }
        ensures outs { out.new.outs ≡ out.old.outs ++ asks_lines (txn_of op.now self.now) self.now.lines }
        ensures room { out.old.room ≤ out.new.room + 16 }
    {
        for at in 0..self.lines.len() {
            self.ask(op, at, out);
        }
    }

    /// Asks the coordinator alone for the phase.
    pub(crate) fn ask_coordinator(&self, op: &Txn<'_>, out: &mut Outbox)
        requires few { length op.now.writes.now ≤ 8 }
        requires room { 0 < out.old.room }
        requires keys { 2 ≤ out.old.keys }
        requires writes { 1 ≤ out.old.writes }
        ensures outs { out.new.outs ≡ out.old.outs ++ asks_lines (txn_of op.now self.now) (line_at self.now.lines (coordinator_of self.now.lines) ∷ []) }
        ensures room { out.new.room + 1 ≡ out.old.room }
    {
        self.ask(op, self.lines.first(), out);
    }

    // Asks a line, unless it is the coordinator's. True where it is asked.
    fn ask_other(&self, op: &Txn<'_>, coordinator: ShardId, at: usize, out: &mut Outbox) -> bool
        requires coordinator { coordinator ≡ coordinator_of self.now.lines }
        requires at { at < length self.now.lines }
        requires few { length op.now.writes.now ≤ 8 }
        requires room { 0 < out.old.room }
        requires keys { 2 ≤ out.old.keys }
        requires writes { 1 ≤ out.old.writes }
        ensures outs { out.new.outs ≡ out.old.outs ++ asks_lines (txn_of op.now self.now) (others_of (txn_of op.now self.now) (get_or self.now.lines at no_line ∷ [])) }
        ensures asked { result ≡ has_lines (others_of (txn_of op.now self.now) (get_or self.now.lines at no_line ∷ [])) }
        ensures room { out.old.room ≤ out.new.room + 1 }
        ensures keys { out.old.keys ≤ out.new.keys + 2 }
        ensures writes { out.old.writes ≤ out.new.writes + 1 }
    {
        if self.lines.shard(at) == coordinator {
            return false;
        }
        self.ask(op, at, out);
        true
    }

    /// Asks all lines but the coordinator's. True where one is asked.
    #[tactic(auto, using(crate::proofs::Frees::others_more, crate::proofs::Frees::some_more))]
    pub(crate) fn ask_others(&self, op: &Txn<'_>, coordinator: ShardId, out: &mut Outbox) -> bool
        requires coordinator { coordinator ≡ coordinator_of self.now.lines }
        requires few { length op.now.writes.now ≤ 8 }
        requires room { 16 ≤ out.old.room }
        requires keys { 32 ≤ out.old.keys }
        requires writes { 16 ≤ out.old.writes }
        ensures outs { out.new.outs ≡ out.old.outs ++ asks_lines (txn_of op.now self.now) (others_of (txn_of op.now self.now) self.now.lines) }
        ensures asked { result ≡ has_lines (others_of (txn_of op.now self.now) self.now.lines) }
        ensures room { out.old.room ≤ out.new.room + 16 }
        ensures keys { out.old.keys ≤ out.new.keys + 32 }
        ensures writes { out.old.writes ≤ out.new.writes + 16 }
    {
        let mut asked = false;
        for at in 0..self.lines.len() {
            let one = self.ask_other(op, coordinator, at, out);
            asked = asked || one;
        }
        asked
    }

    // Tells a shard the decision of an attempt.
    fn tell(&self, attempt: Attempt, outcome: Outcome, at: usize, out: &mut Outbox)
        requires at { at < length self.now.lines }
        requires room { 0 < out.old.room }
        ensures outs { out.new.outs ≡ out.old.outs ++ told (get_or self.now.lines at no_line).shard (decision_request attempt outcome) ∷ [] }
        ensures room { out.old.room ≤ out.new.room + 1 }
        ensures keys { out.new.keys ≡ out.old.keys }
        ensures writes { out.new.writes ≡ out.old.writes }
    {
        out.tell(self.lines.shard(at), decision_as(attempt, outcome));
    }

    /// Tells all shards the decision of an attempt.
    #[tactic(auto, using(crate::proofs::Shapes::tells_more))]
    pub(crate) fn tell_all(&self, attempt: Attempt, outcome: Outcome, out: &mut Outbox)
        requires room { 16 ≤ out.old.room }
        ensures outs { out.new.outs ≡ out.old.outs ++ tells_decision attempt outcome (shards_of self.now.lines) }
        ensures room { out.old.room ≤ out.new.room + 16 }
        ensures keys { out.new.keys ≡ out.old.keys }
        ensures writes { out.new.writes ≡ out.old.writes }
    {
        for at in 0..self.lines.len() {
            self.tell(attempt, outcome, at, out);
        }
    }
}

// Whether a key is among keys.
fn has_key(keys: &[Key], key: Key) -> bool
    ensures { result ≡ is_among keys.now key }
{
    for one in keys {
        if is_same_key(key, *one) {
            return true;
        }
    }
    false
}
