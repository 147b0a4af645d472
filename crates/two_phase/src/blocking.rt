//! A line that is in somebody's way, in the tables' words.

ghost use Rattle.std.specs.Prelude.{◌≡◌, ◌+◌, ◌<◌, ◌≤◌, ◌++◌, length, get_or};
ghost use Rattle.rss_tables.specs.Lines.{no_line};
ghost use Rattle.rss_tables.specs.TransactionSession.{txn_hears, txn_wakes};
ghost use Rattle.rss_wire.specs.declared.messages.Reply.TheVariants as reply;
ghost use Rattle.two_phase.specs.Session.{txn_of, no_reading};

use crate::session::Session;
use crate::txn::Txn;
use rss_tables::LineState;
use rss_wire::{Holder, Outcome};
use session_outbox::{Outbox, block, resolve, sleep, wake};

impl Session {
    /// A sleeping line asks again; any other stays as it is. Takes no memory.
    pub fn wake(&mut self, op: &Txn<'_>, line: usize, out: &mut Outbox)
        requires line { line < length self.old.lines }
        requires room { 0 < out.old.room }
        ensures after { txn_of op.now self.new ≡ (txn_wakes (txn_of op.now self.old) (get_or self.old.lines line no_line)).after }
        ensures outs { out.new.outs ≡ out.old.outs ++ (txn_wakes (txn_of op.now self.old) (get_or self.old.lines line no_line)).outs }
    {
        let _ = op;
        wake(&mut self.lines, line, out);
    }

    /// Something is in a line's way.
    pub(crate) fn blocked(
        &mut self,
        op: &Txn<'_>,
        line: usize,
        holders: &[Holder],
        out: &mut Outbox,
    )
        requires line { line < length self.old.lines }
        requires room { 0 < out.old.room }
        ensures after { txn_of op.now self.new ≡ (txn_hears (txn_of op.now self.old) (get_or self.old.lines line no_line) no_reading (reply.Wait holders.now)).after }
        ensures outs { out.new.outs ≡ out.old.outs ++ (txn_hears (txn_of op.now self.old) (get_or self.old.lines line no_line) no_reading (reply.Wait holders.now)).outs }
    {
        let _ = op;
        block(&mut self.lines, line, holders, out);
    }

    /// A line was told a decision.
    pub(crate) fn resolved(&mut self, op: &Txn<'_>, line: usize, outcome: Outcome, out: &mut Outbox)
        requires line { line < length self.old.lines }
        requires room { 0 < out.old.room }
        ensures after { txn_of op.now self.new ≡ (txn_hears (txn_of op.now self.old) (get_or self.old.lines line no_line) no_reading (reply.Outcome outcome)).after }
        ensures outs { out.new.outs ≡ out.old.outs ++ (txn_hears (txn_of op.now self.old) (get_or self.old.lines line no_line) no_reading (reply.Outcome outcome)).outs }
    {
        let _ = op;
        resolve(&mut self.lines, line, outcome, out);
    }

    /// A line was told that nothing is decided yet.
    pub(crate) fn open(&mut self, op: &Txn<'_>, line: usize)
        requires line { line < length self.old.lines }
        ensures { txn_of op.now self.new ≡ (txn_hears (txn_of op.now self.old) (get_or self.old.lines line no_line) no_reading reply.Open).after }
    {
        let _ = op;
        sleep(&mut self.lines, line);
    }

    /// A line asks again for the phase.
    pub(crate) fn ask_again(&mut self, op: &Txn<'_>, line: usize, out: &mut Outbox)
        requires line { line < length self.old.lines }
        requires few { length op.now.writes.now ≤ 8 }
        requires room { 0 < out.old.room }
        requires keys { 2 ≤ out.old.keys }
        requires writes { 1 ≤ out.old.writes }
        ensures after { txn_of op.now self.new ≡ (txn_hears (txn_of op.now self.old) (get_or self.old.lines line no_line) no_reading reply.Done).after }
        ensures outs { out.new.outs ≡ out.old.outs ++ (txn_hears (txn_of op.now self.old) (get_or self.old.lines line no_line) no_reading reply.Done).outs }
    {
        self.ask(op, line, out);
        self.lines.set_state(line, LineState::Awaiting);
    }
}
