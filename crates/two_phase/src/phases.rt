//! How one phase follows another.

ghost use Rattle.std.specs.Prelude.{◌≡◌, ◌+◌, ◌<◌, ◌≤◌, ◌^◌, ◌++◌, length, true};
ghost use Rattle.rss_tables.specs.TransactionSession.{is_locked, is_prepared, is_wounded, is_decided, is_committed, goes_to_prepare, goes_to_free_last};
ghost use Rattle.two_phase.specs.Session.{txn_of, to_coordinator, is_aborted, goes_on, frees};

use crate::formulas::guard_holds;
use crate::session::Session;
use crate::txn::Txn;
use rss_tables::TxnPhase;
use rss_wire::Outcome;
use session_outbox::Outbox;
use truetime::Interval;

impl Session {
    // All locks are held, and the guard holds: all shards are asked to prepare.
    fn go_to_prepare(&mut self, op: &Txn<'_>, at: Interval, out: &mut Outbox)
        requires few { length op.now.writes.now ≤ 8 }
        requires margin { op.now.margin < 2 ^ 62 }
        requires room { 16 ≤ out.old.room }
        requires keys { 32 ≤ out.old.keys }
        requires writes { 16 ≤ out.old.writes }
        ensures after { txn_of op.now self.new ≡ (goes_to_prepare (txn_of op.now self.old) at).after }
        ensures outs { out.new.outs ≡ out.old.outs ++ (goes_to_prepare (txn_of op.now self.old) at).outs }
    {
        self.phase = TxnPhase::Preparing;
        self.earliest_end = at.latest() + op.margin;
        self.lines.await_all();
        self.ask_all(op, out);
    }

    // The coordinator alone is asked, in a phase that just began.
    #[tactic(auto, using(crate::proofs::Shapes::same_coordinator))]
    fn ask_coordinator_alone(&mut self, op: &Txn<'_>, out: &mut Outbox)
        requires few { length op.now.writes.now ≤ 8 }
        requires room { 0 < out.old.room }
        requires keys { 2 ≤ out.old.keys }
        requires writes { 1 ≤ out.old.writes }
        ensures after { txn_of op.now self.new ≡ (to_coordinator (txn_of op.now self.old)).after }
        ensures outs { out.new.outs ≡ out.old.outs ++ (to_coordinator (txn_of op.now self.old)).outs }
    {
        let coordinator = self.lines.coordinator();
        self.lines.await_only(coordinator);
        self.ask_coordinator(op, out);
    }

    // All shards are prepared: the coordinator is asked to commit.
    fn go_to_decide(&mut self, op: &Txn<'_>, out: &mut Outbox)
        requires few { length op.now.writes.now ≤ 8 }
        requires room { 0 < out.old.room }
        requires keys { 2 ≤ out.old.keys }
        requires writes { 1 ≤ out.old.writes }
        ensures after { txn_of op.now self.new ≡ (is_prepared (txn_of op.now self.old)).after }
        ensures outs { out.new.outs ≡ out.old.outs ++ (is_prepared (txn_of op.now self.old)).outs }
    {
        self.phase = TxnPhase::Deciding(self.lines.greatest_prepared());
        self.ask_coordinator_alone(op, out);
    }

    /// The attempt was wounded: the coordinator is asked to decide without commit.
    pub(crate) fn wounded(&mut self, op: &Txn<'_>, out: &mut Outbox)
        requires few { length op.now.writes.now ≤ 8 }
        requires room { 0 < out.old.room }
        requires keys { 2 ≤ out.old.keys }
        requires writes { 1 ≤ out.old.writes }
        ensures after { txn_of op.now self.new ≡ (is_wounded (txn_of op.now self.old)).after }
        ensures outs { out.new.outs ≡ out.old.outs ++ (is_wounded (txn_of op.now self.old)).outs }
    {
        self.phase = TxnPhase::Undoing;
        self.ask_coordinator_alone(op, out);
    }

    // The coordinator is asked to release last.
    fn go_to_free_last(&mut self, op: &Txn<'_>, time: u64, out: &mut Outbox)
        requires few { length op.now.writes.now ≤ 8 }
        requires room { 0 < out.old.room }
        requires keys { 2 ≤ out.old.keys }
        requires writes { 1 ≤ out.old.writes }
        ensures after { txn_of op.now self.new ≡ (goes_to_free_last (txn_of op.now self.old) time).after }
        ensures outs { out.new.outs ≡ out.old.outs ++ (goes_to_free_last (txn_of op.now self.old) time).outs }
    {
        self.phase = TxnPhase::FreeingLast(time);
        self.ask_coordinator_alone(op, out);
    }

    // The guard failed: the other shards are asked to release at a time, or at once the coordinator.
    #[tactic(auto, using(crate::proofs::Frees::freeing))]
    fn go_to_free(&mut self, op: &Txn<'_>, time: u64, out: &mut Outbox)
        requires few { length op.now.writes.now ≤ 8 }
        requires room { 17 ≤ out.old.room }
        requires keys { 34 ≤ out.old.keys }
        requires writes { 17 ≤ out.old.writes }
        ensures after { txn_of op.now self.new ≡ (frees (txn_of op.now self.old) time).after }
        ensures outs { out.new.outs ≡ out.old.outs ++ (frees (txn_of op.now self.old) time).outs }
    {
        let coordinator = self.lines.coordinator();
        self.phase = TxnPhase::Freeing(time);
        let asked = self.ask_others(op, coordinator, out);
        if asked {
            self.lines.await_but(coordinator);
        } else {
            self.go_to_free_last(op, time, out);
        }
    }

    // All locks are held.
    #[tactic(auto, using(crate::proofs::Frees::anew_free))]
    fn locked(&mut self, op: &Txn<'_>, at: Interval, out: &mut Outbox)
        requires few { length op.now.writes.now ≤ 8 }
        requires margin { op.now.margin < 2 ^ 62 }
        requires room { 17 ≤ out.old.room }
        requires keys { 34 ≤ out.old.keys }
        requires writes { 17 ≤ out.old.writes }
        ensures after { txn_of op.now self.new ≡ (is_locked (txn_of op.now self.old) at).after }
        ensures outs { out.new.outs ≡ out.old.outs ++ (is_locked (txn_of op.now self.old) at).outs }
        ensures anew { (is_locked (txn_of op.now self.old) at).anew ≡ true }
    {
        if guard_holds(&op.guard, op.reads, &self.lines) {
            self.go_to_prepare(op, at, out);
        } else {
            let time = at.latest().max(op.least.max(self.lines.greatest_shown()));
            self.go_to_free(op, time, out);
        }
    }

    /// A line was answered: where all are, the next phase begins. True where one does.
    pub(crate) fn go_on(&mut self, op: &Txn<'_>, at: Interval, out: &mut Outbox) -> bool
        requires few { length op.now.writes.now ≤ 8 }
        requires margin { op.now.margin < 2 ^ 62 }
        requires room { 17 ≤ out.old.room }
        requires keys { 34 ≤ out.old.keys }
        requires writes { 17 ≤ out.old.writes }
        ensures after { txn_of op.now self.new ≡ (goes_on (txn_of op.now self.old) at).after }
        ensures outs { out.new.outs ≡ out.old.outs ++ (goes_on (txn_of op.now self.old) at).outs }
        ensures anew { result ≡ (goes_on (txn_of op.now self.old) at).anew }
    {
        match self.phase {
            TxnPhase::Locking => {
                if !self.lines.all_answered() {
                    return false;
                }
                self.locked(op, at, out);
                true
            }
            TxnPhase::Preparing => {
                if !self.lines.all_answered() {
                    return false;
                }
                self.go_to_decide(op, out);
                true
            }
            TxnPhase::Freeing(time) => {
                if !self.lines.all_answered() {
                    return false;
                }
                self.go_to_free_last(op, time, out);
                true
            }
            TxnPhase::FreeingLast(time) => {
                self.phase = TxnPhase::Failed(time);
                false
            }
            TxnPhase::Deciding(_)
            | TxnPhase::Waiting(_)
            | TxnPhase::Undoing
            | TxnPhase::Committed(_)
            | TxnPhase::Failed(_) => false,
        }
    }

    /// The decision came: a commit waits for its time, unless that has passed; an abort ends the
    /// attempt. True where a new phase begins.
    pub(crate) fn decided(
        &mut self,
        op: &Txn<'_>,
        at: Interval,
        outcome: Outcome,
        out: &mut Outbox,
    ) -> bool
        requires few { length op.now.writes.now ≤ 8 }
        requires attempts { self.old.k + 1 < 2 ^ 32 }
        requires room { 32 ≤ out.old.room }
        requires keys { 32 ≤ out.old.keys }
        requires writes { 16 ≤ out.old.writes }
        ensures after { txn_of op.now self.new ≡ (is_decided (txn_of op.now self.old) at outcome).after }
        ensures outs { out.new.outs ≡ out.old.outs ++ (is_decided (txn_of op.now self.old) at outcome).outs }
        ensures anew { result ≡ (is_decided (txn_of op.now self.old) at outcome).anew }
    {
        match outcome {
            Outcome::Committed(time) => {
                if time.max(self.earliest_end) < at.earliest() {
                    self.commit(op, time, out);
                } else {
                    self.phase = TxnPhase::Waiting(time);
                }
                false
            }
            Outcome::Aborted => {
                self.begin_again(op, out);
                true
            }
        }
    }

    /// The commit is told to all shards.
    pub(crate) fn commit(&mut self, op: &Txn<'_>, time: u64, out: &mut Outbox)
        requires room { 16 ≤ out.old.room }
        ensures after { txn_of op.now self.new ≡ (is_committed (txn_of op.now self.old) time).after }
        ensures outs { out.new.outs ≡ out.old.outs ++ (is_committed (txn_of op.now self.old) time).outs }
    {
        self.phase = TxnPhase::Committed(time);
        self.tell_all(self.attempt(op), Outcome::Committed(time), out);
    }

    // The abort is told to all shards, and the next attempt begins.
    #[tactic(auto, using(crate::proofs::Shapes::keeping))]
    fn begin_again(&mut self, op: &Txn<'_>, out: &mut Outbox)
        requires few { length op.now.writes.now ≤ 8 }
        requires attempts { self.old.k + 1 < 2 ^ 32 }
        requires room { 32 ≤ out.old.room }
        requires keys { 32 ≤ out.old.keys }
        requires writes { 16 ≤ out.old.writes }
        ensures after { txn_of op.now self.new ≡ (is_aborted (txn_of op.now self.old)).after }
        ensures outs { out.new.outs ≡ out.old.outs ++ (is_aborted (txn_of op.now self.old)).outs }
    {
        self.tell_all(self.attempt(op), Outcome::Aborted, out);
        self.k += 1;
        self.phase = TxnPhase::Locking;
        self.lines.open_again();
        self.ask_all(op, out);
    }
}
