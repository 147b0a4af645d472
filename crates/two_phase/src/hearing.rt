//! What a session does with each reply, and when its time has passed.

ghost use Rattle.std.specs.Prelude.{◌≡◌, ◌+◌, ◌<◌, ◌≤◌, ◌^◌, ◌++◌, length, get_or, OnOk};
ghost use Rattle.rss_tables.specs.Lines.{no_line};
ghost use Rattle.rss_tables.specs.TransactionSession.{txn_hears, txn_passes};
ghost use Rattle.rss_wire.specs.declared.messages.Reply.TheVariants as reply;
ghost use Rattle.two_phase.specs.Session.{txn_of, versions_shown as shown_by};

use crate::session::Session;
use crate::txn::Txn;
use rss_names::Key;
use rss_tables::{LineState, TxnPhase};
use rss_wire::{Reply, Version};
use session_outbox::Outbox;
use std::alloc::AllocError;
use truetime::Interval;

/// The most requests that one call sends, and the spare lists of keys and of writes that it takes.
const MOST_REQUESTS: usize = 32;

const MOST_KEY_LISTS: usize = 34;

const MOST_WRITE_LISTS: usize = 17;

impl Session {
    /// Makes room for all that one call of `start`, `wake` or `pass` can send. An `Err` is want of
    /// memory: nothing that was sent is lost.
    pub fn make_room(out: &mut Outbox) -> Result<(), AllocError>
        ensures outs { out.new.outs ≡ out.old.outs }
        ensures room { OnOk result (32 ≤ out.new.room) }
        ensures keys { OnOk result (34 ≤ out.new.keys) }
        ensures writes { OnOk result (17 ≤ out.new.writes) }
    {
        out.make_room(MOST_REQUESTS, MOST_KEY_LISTS, MOST_WRITE_LISTS)
    }

    /// Makes room for all that a reply can show and cause to be sent. An `Err` is want of memory: the
    /// session is as it was, and nothing that was sent is lost.
    pub fn make_room_for(&mut self, r: &Reply, out: &mut Outbox) -> Result<(), AllocError>
        ensures same { record self.new { room = self.old.room } ≡ self.old }
        ensures shown { OnOk result (shown_by r.now ≤ self.new.room) }
        ensures outs { out.new.outs ≡ out.old.outs }
        ensures room { OnOk result (32 ≤ out.new.room) }
        ensures keys { OnOk result (34 ≤ out.new.keys) }
        ensures writes { OnOk result (17 ≤ out.new.writes) }
    {
        self.lines.make_room(versions_shown(r), 0)?;
        Session::make_room(out)
    }

    /// Hears a reply to the current exchange of a line: the row of the tables, exactly. True where a
    /// new phase begins. Takes no memory.
    pub fn on_reply(
        &mut self,
        op: &Txn<'_>,
        at: Interval,
        line: usize,
        r: &Reply,
        out: &mut Outbox,
    ) -> bool
        requires line { line < length self.old.lines }
        requires shown { shown_by r.now ≤ self.old.room }
        requires few { length op.now.writes.now ≤ 8 }
        requires margin { op.now.margin < 2 ^ 62 }
        requires attempts { self.old.k + 1 < 2 ^ 32 }
        requires room { 32 ≤ out.old.room }
        requires keys { 34 ≤ out.old.keys }
        requires writes { 17 ≤ out.old.writes }
        ensures after { txn_of op.now self.new ≡ (txn_hears (txn_of op.now self.old) (get_or self.old.lines line no_line) at r.now).after }
        ensures outs { out.new.outs ≡ out.old.outs ++ (txn_hears (txn_of op.now self.old) (get_or self.old.lines line no_line) at r.now).outs }
        ensures anew { result ≡ (txn_hears (txn_of op.now self.old) (get_or self.old.lines line no_line) at r.now).anew }
    {
        match r {
            Reply::Granted { shown } => self.granted(op, at, line, shown.as_slice(), out),
            Reply::Prepared { prepare_time } => self.prepared(op, at, line, *prepare_time, out),
            Reply::Released => self.released(op, at, line, out),
            Reply::Decided { outcome } => self.decided(op, at, *outcome, out),
            Reply::Wounded => {
                self.wounded(op, out);
                true
            }
            Reply::Wait { holders } => {
                self.blocked(op, line, holders.as_slice(), out);
                false
            }
            Reply::Blocked { holders } => {
                self.blocked(op, line, holders.as_slice(), out);
                false
            }
            Reply::Outcome { outcome } => {
                self.resolved(op, line, *outcome, out);
                false
            }
            Reply::Open => {
                self.open(op, line);
                false
            }
            Reply::Done => {
                self.ask_again(op, line, out);
                false
            }
            Reply::Values { .. } => false,
            Reply::Fixed => false,
            Reply::Held { .. } => false,
            Reply::Stored => false,
        }
    }

    /// The time has passed that a committed transaction waits for: the commit is told to all shards.
    /// Takes no memory.
    pub fn pass(&mut self, op: &Txn<'_>, out: &mut Outbox)
        requires room { 16 ≤ out.old.room }
        ensures after { txn_of op.now self.new ≡ (txn_passes (txn_of op.now self.old) self.old.phase).after }
        ensures outs { out.new.outs ≡ out.old.outs ++ (txn_passes (txn_of op.now self.old) self.old.phase).outs }
    {
        match self.phase {
            TxnPhase::Waiting(time) => self.commit(op, time, out),
            TxnPhase::Locking
            | TxnPhase::Preparing
            | TxnPhase::Freeing(_)
            | TxnPhase::FreeingLast(_)
            | TxnPhase::Deciding(_)
            | TxnPhase::Undoing
            | TxnPhase::Committed(_)
            | TxnPhase::Failed(_) => {}
        }
    }

    // A shard granted its locks.
    fn granted(
        &mut self,
        op: &Txn<'_>,
        at: Interval,
        line: usize,
        shown: &[(Key, Version)],
        out: &mut Outbox,
    ) -> bool
        requires line { line < length self.old.lines }
        requires shown { length shown.now ≤ self.old.room }
        requires few { length op.now.writes.now ≤ 8 }
        requires margin { op.now.margin < 2 ^ 62 }
        requires room { 17 ≤ out.old.room }
        requires keys { 34 ≤ out.old.keys }
        requires writes { 17 ≤ out.old.writes }
        ensures after { txn_of op.now self.new ≡ (txn_hears (txn_of op.now self.old) (get_or self.old.lines line no_line) at (reply.Granted shown.now)).after }
        ensures outs { out.new.outs ≡ out.old.outs ++ (txn_hears (txn_of op.now self.old) (get_or self.old.lines line no_line) at (reply.Granted shown.now)).outs }
        ensures anew { result ≡ (txn_hears (txn_of op.now self.old) (get_or self.old.lines line no_line) at (reply.Granted shown.now)).anew }
    {
        self.lines.grant(line, shown);
        self.go_on(op, at, out)
    }

    // A shard is prepared.
    fn prepared(
        &mut self,
        op: &Txn<'_>,
        at: Interval,
        line: usize,
        time: u64,
        out: &mut Outbox,
    ) -> bool
        requires line { line < length self.old.lines }
        requires few { length op.now.writes.now ≤ 8 }
        requires margin { op.now.margin < 2 ^ 62 }
        requires room { 17 ≤ out.old.room }
        requires keys { 34 ≤ out.old.keys }
        requires writes { 17 ≤ out.old.writes }
        ensures after { txn_of op.now self.new ≡ (txn_hears (txn_of op.now self.old) (get_or self.old.lines line no_line) at (reply.Prepared time)).after }
        ensures outs { out.new.outs ≡ out.old.outs ++ (txn_hears (txn_of op.now self.old) (get_or self.old.lines line no_line) at (reply.Prepared time)).outs }
        ensures anew { result ≡ (txn_hears (txn_of op.now self.old) (get_or self.old.lines line no_line) at (reply.Prepared time)).anew }
    {
        self.lines.prepared(line, time);
        self.go_on(op, at, out)
    }

    // A shard has given its locks back.
    fn released(&mut self, op: &Txn<'_>, at: Interval, line: usize, out: &mut Outbox) -> bool
        requires line { line < length self.old.lines }
        requires few { length op.now.writes.now ≤ 8 }
        requires margin { op.now.margin < 2 ^ 62 }
        requires room { 17 ≤ out.old.room }
        requires keys { 34 ≤ out.old.keys }
        requires writes { 17 ≤ out.old.writes }
        ensures after { txn_of op.now self.new ≡ (txn_hears (txn_of op.now self.old) (get_or self.old.lines line no_line) at reply.Released).after }
        ensures outs { out.new.outs ≡ out.old.outs ++ (txn_hears (txn_of op.now self.old) (get_or self.old.lines line no_line) at reply.Released).outs }
        ensures anew { result ≡ (txn_hears (txn_of op.now self.old) (get_or self.old.lines line no_line) at reply.Released).anew }
    {
        self.lines.set_state(line, LineState::Answered);
        self.go_on(op, at, out)
    }
}

// How many versions a reply shows that the session keeps.
fn versions_shown(r: &Reply) -> usize
    ensures { result ≡ shown_by r.now }
{
    match r {
        Reply::Granted { shown } => shown.len(),
        Reply::Wounded => 0,
        Reply::Wait { .. } => 0,
        Reply::Prepared { .. } => 0,
        Reply::Decided { .. } => 0,
        Reply::Done => 0,
        Reply::Outcome { .. } => 0,
        Reply::Open => 0,
        Reply::Released => 0,
        Reply::Values { .. } => 0,
        Reply::Blocked { .. } => 0,
        Reply::Fixed => 0,
        Reply::Held { .. } => 0,
        Reply::Stored => 0,
    }
}
