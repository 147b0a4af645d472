//! What a session does with each reply.

ghost use Rattle.std.specs.Prelude.{◌≡◌, ◌+◌, ◌<◌, ◌≤◌, ◌++◌, length, get_or, OnOk};
ghost use Rattle.rss_tables.specs.Lines.{no_line};
ghost use Rattle.rss_tables.specs.SnapshotSession.{snap_hears, snapshot_time as time_of_snapshot};
ghost use Rattle.rss_wire.specs.declared.messages.Reply.TheVariants as reply;
ghost use Rattle.snapshot_reads.specs.Session.{snap_of, goes_on, goes_to_second, versions_shown as shown_by, writers_skipped as skipped_by};

use crate::session::Session;
use crate::snap::Snap;
use rss_names::Key;
use rss_tables::SnapPhase;
use rss_wire::{Reply, Skipped, Version};
use session_outbox::Outbox;
use std::alloc::AllocError;

/// The most requests that one call sends, each with a spare list of keys.
const MOST_REQUESTS: usize = 16;

impl Session {
    /// Makes room for all that one call of `start` or `wake` can send. An `Err` is want of memory:
    /// nothing that was sent is lost.
    pub fn make_room(out: &mut Outbox) -> Result<(), AllocError>
        ensures outs { out.new.outs ≡ out.old.outs }
        ensures room { OnOk result (16 ≤ out.new.room) }
        ensures keys { OnOk result (16 ≤ out.new.keys) }
    {
        out.make_room(MOST_REQUESTS, MOST_REQUESTS, 0)
    }

    /// Makes room for all that a reply can show and cause to be sent. An `Err` is want of memory: the
    /// session is as it was but for its room, and nothing that was sent is lost.
    pub fn make_room_for(&mut self, r: &Reply, out: &mut Outbox) -> Result<(), AllocError>
        ensures same { record self.new { room = self.old.room; skips = self.old.skips } ≡ self.old }
        ensures shown { OnOk result (shown_by r.now ≤ self.new.room) }
        ensures skipped { OnOk result (skipped_by r.now ≤ self.new.skips) }
        ensures outs { out.new.outs ≡ out.old.outs }
        ensures room { OnOk result (16 ≤ out.new.room) }
        ensures keys { OnOk result (16 ≤ out.new.keys) }
    {
        self.lines.make_room(versions_shown(r), writers_skipped(r))?;
        Session::make_room(out)
    }

    /// Hears a reply to the current exchange of a line: the row of the tables, exactly. True where the
    /// second round begins. Takes no memory.
    pub fn on_reply(&mut self, op: &Snap<'_>, line: usize, r: &Reply, out: &mut Outbox) -> bool
        requires line { line < length self.old.lines }
        requires shown { shown_by r.now ≤ self.old.room }
        requires skipped { skipped_by r.now ≤ self.old.skips }
        requires room { 16 ≤ out.old.room }
        requires keys { 16 ≤ out.old.keys }
        ensures after { snap_of op.now self.new ≡ (snap_hears (snap_of op.now self.old) (get_or self.old.lines line no_line) r.now).after }
        ensures outs { out.new.outs ≡ out.old.outs ++ (snap_hears (snap_of op.now self.old) (get_or self.old.lines line no_line) r.now).outs }
        ensures anew { result ≡ (snap_hears (snap_of op.now self.old) (get_or self.old.lines line no_line) r.now).anew }
    {
        match r {
            Reply::Values { versions, skipped } => self.shown_values(
                op,
                line,
                versions.as_slice(),
                skipped.as_slice(),
                out,
            ),
            Reply::Wait { holders } => {
                self.blocked(op, line, holders.as_slice(), out);
                false
            }
            Reply::Blocked { holders } => {
                self.blocked(op, line, holders.as_slice(), out);
                false
            }
            Reply::Outcome { outcome } => {
                self.resolved(op, line, *outcome, out);
                false
            }
            Reply::Open => {
                self.open(op, line);
                false
            }
            Reply::Done => {
                self.ask_again(op, line, out);
                false
            }
            Reply::Granted { .. } => false,
            Reply::Prepared { .. } => false,
            Reply::Released => false,
            Reply::Wounded => false,
            Reply::Decided { .. } => false,
            Reply::Fixed => false,
            Reply::Held { .. } => false,
            Reply::Stored => false,
        }
    }

    // A shard showed versions, and the writers that it passed by.
    fn shown_values(
        &mut self,
        op: &Snap<'_>,
        line: usize,
        versions: &[(Key, Version)],
        skipped: &[Skipped],
        out: &mut Outbox,
    ) -> bool
        requires line { line < length self.old.lines }
        requires shown { length versions.now ≤ self.old.room }
        requires skipped { length skipped.now ≤ self.old.skips }
        requires room { 16 ≤ out.old.room }
        requires keys { 16 ≤ out.old.keys }
        ensures after { snap_of op.now self.new ≡ (snap_hears (snap_of op.now self.old) (get_or self.old.lines line no_line) (reply.Values versions.now skipped.now)).after }
        ensures outs { out.new.outs ≡ out.old.outs ++ (snap_hears (snap_of op.now self.old) (get_or self.old.lines line no_line) (reply.Values versions.now skipped.now)).outs }
        ensures anew { result ≡ (snap_hears (snap_of op.now self.old) (get_or self.old.lines line no_line) (reply.Values versions.now skipped.now)).anew }
    {
        self.lines.show(line, versions, skipped);
        self.go_on(op, out)
    }

    // A line was answered: where all are, the second round begins, or it is done.
    fn go_on(&mut self, op: &Snap<'_>, out: &mut Outbox) -> bool
        requires room { 16 ≤ out.old.room }
        requires keys { 16 ≤ out.old.keys }
        ensures after { snap_of op.now self.new ≡ (goes_on (snap_of op.now self.old)).after }
        ensures outs { out.new.outs ≡ out.old.outs ++ (goes_on (snap_of op.now self.old)).outs }
        ensures anew { result ≡ (goes_on (snap_of op.now self.old)).anew }
    {
        if !self.lines.all_answered() {
            return false;
        }
        match self.phase {
            SnapPhase::First(_) => self.go_to_second(op, out),
            SnapPhase::Second(time) => {
                self.phase = SnapPhase::Done(time);
                false
            }
            SnapPhase::Done(_) => false,
        }
    }

    // The snapshot time is known: lines that may have missed a writer are asked again, or it is done.
    #[tactic(auto, using(crate::proofs::Rounds::seconds))]
    fn go_to_second(&mut self, op: &Snap<'_>, out: &mut Outbox) -> bool
        requires room { 16 ≤ out.old.room }
        requires keys { 16 ≤ out.old.keys }
        ensures after { snap_of op.now self.new ≡ (goes_to_second (snap_of op.now self.old)).after }
        ensures outs { out.new.outs ≡ out.old.outs ++ (goes_to_second (snap_of op.now self.old)).outs }
        ensures anew { result ≡ (goes_to_second (snap_of op.now self.old)).anew }
    {
        let time = self.snapshot_time(op);
        self.phase = SnapPhase::Second(time);
        let asked = self.ask_all_passed(op, time, out);
        if asked {
            self.lines.ask_again(time);
        } else {
            self.phase = SnapPhase::Done(time);
        }
        asked
    }

    // The snapshot time: the greatest of the least time and of all versions shown.
    fn snapshot_time(&self, op: &Snap<'_>) -> u64
        ensures { result ≡ time_of_snapshot (snap_of op.now self.now) }
    {
        op.least.max(self.lines.greatest_shown())
    }
}

// How many versions a reply shows that the session keeps.
fn versions_shown(r: &Reply) -> usize
    ensures { result ≡ shown_by r.now }
{
    match r {
        Reply::Values { versions, .. } => versions.len(),
        Reply::Granted { .. } => 0,
        Reply::Wounded => 0,
        Reply::Wait { .. } => 0,
        Reply::Prepared { .. } => 0,
        Reply::Decided { .. } => 0,
        Reply::Done => 0,
        Reply::Outcome { .. } => 0,
        Reply::Open => 0,
        Reply::Released => 0,
        Reply::Blocked { .. } => 0,
        Reply::Fixed => 0,
        Reply::Held { .. } => 0,
        Reply::Stored => 0,
    }
}

// How many skipped writers a reply names that the session keeps.
fn writers_skipped(r: &Reply) -> usize
    ensures { result ≡ skipped_by r.now }
{
    match r {
        Reply::Values { skipped, .. } => skipped.len(),
        Reply::Granted { .. } => 0,
        Reply::Wounded => 0,
        Reply::Wait { .. } => 0,
        Reply::Prepared { .. } => 0,
        Reply::Decided { .. } => 0,
        Reply::Done => 0,
        Reply::Outcome { .. } => 0,
        Reply::Open => 0,
        Reply::Released => 0,
        Reply::Blocked { .. } => 0,
        Reply::Fixed => 0,
        Reply::Held { .. } => 0,
        Reply::Stored => 0,
    }
}
