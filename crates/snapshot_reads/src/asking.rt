//! What a session asks its shards for in each round.

ghost use Rattle.std.specs.Prelude.{◌≡◌, ◌+◌, ◌<◌, ◌≤◌, ◌∷◌, [], ◌++◌, length, get_or};
ghost use Rattle.rss_tables.specs.Lines.{no_line};
ghost use Rattle.rss_tables.specs.SnapshotSession.{snap_request, snap_asks, snap_starts};
ghost use Rattle.snapshot_reads.specs.Session.{snap_of, passed_of, has_lines};

use crate::session::Session;
use crate::snap::Snap;
use rss_tables::SnapPhase;
use rss_wire::Request;
use session_outbox::Outbox;

impl Session {
    /// Asks all shards at the read time: called once, before any reply. Takes no memory.
    #[tactic(auto, using(crate::proofs::Rounds::asks_more))]
    pub fn start(&self, op: &Snap<'_>, out: &mut Outbox)
        requires room { 16 ≤ out.old.room }
        requires keys { 16 ≤ out.old.keys }
        ensures outs { out.new.outs ≡ out.old.outs ++ (snap_starts (snap_of op.now self.now)).outs }
    {
        for at in 0..self.lines.len() {
            self.ask(op, at, out);
        }
    }

    // The request of the phase to a line: in the second round nothing is skipped.
    fn request(&self, op: &Snap<'_>, at: usize, out: &mut Outbox) -> Request
        requires at { at < length self.now.lines }
        requires keys { 0 < out.old.keys }
        ensures request { result ≡ snap_request (snap_of op.now self.now) self.now.phase (get_or self.now.lines at no_line) }
        ensures outs { out.new.outs ≡ out.old.outs }
        ensures room { out.new.room ≡ out.old.room }
        ensures keys { out.new.keys + 1 ≡ out.old.keys }
    {
        let keys = out.keys(self.lines.reads(at));
        match self.phase {
            SnapPhase::First(read_time) => Request::Snapshot {
                read_time,
                least: op.least,
                keys,
                skip: true,
            },
            SnapPhase::Second(time) => Request::Snapshot {
                read_time: time,
                least: op.least,
                keys,
                skip: false,
            },
            SnapPhase::Done(time) => Request::Snapshot {
                read_time: time,
                least: op.least,
                keys,
                skip: false,
            },
        }
    }

    /// Asks a line for the phase.
    pub(crate) fn ask(&self, op: &Snap<'_>, at: usize, out: &mut Outbox)
        requires at { at < length self.now.lines }
        requires room { 0 < out.old.room }
        requires keys { 0 < out.old.keys }
        ensures outs { out.new.outs ≡ out.old.outs ++ snap_asks (snap_of op.now self.now) (get_or self.now.lines at no_line ∷ []) }
        ensures room { out.new.room + 1 ≡ out.old.room }
        ensures keys { out.new.keys + 1 ≡ out.old.keys }
    {
        let request = self.request(op, at, out);
        out.ask(self.lines.shard(at), request);
    }

    // Asks a line, where it passed by a writer that may stand at or below a time. True where it is asked.
    fn ask_passed(&self, op: &Snap<'_>, time: u64, at: usize, out: &mut Outbox) -> bool
        requires at { at < length self.now.lines }
        requires room { 0 < out.old.room }
        requires keys { 0 < out.old.keys }
        ensures outs { out.new.outs ≡ out.old.outs ++ snap_asks (snap_of op.now self.now) (passed_of time (get_or self.now.lines at no_line ∷ [])) }
        ensures asked { result ≡ has_lines (passed_of time (get_or self.now.lines at no_line ∷ [])) }
        ensures room { out.old.room ≤ out.new.room + 1 }
        ensures keys { out.old.keys ≤ out.new.keys + 1 }
    {
        if !self.lines.must_ask_again(at, time) {
            return false;
        }
        self.ask(op, at, out);
        true
    }

    /// Asks all lines that passed by a writer which may stand at or below a time. True where one is
    /// asked.
    #[tactic(auto, using(crate::proofs::Rounds::passed_more, crate::proofs::Rounds::some_more))]
    pub(crate) fn ask_all_passed(&self, op: &Snap<'_>, time: u64, out: &mut Outbox) -> bool
        requires room { 16 ≤ out.old.room }
        requires keys { 16 ≤ out.old.keys }
        ensures outs { out.new.outs ≡ out.old.outs ++ snap_asks (snap_of op.now self.now) (passed_of time self.now.lines) }
        ensures asked { result ≡ has_lines (passed_of time self.now.lines) }
    {
        let mut asked = false;
        for at in 0..self.lines.len() {
            let one = self.ask_passed(op, time, at, out);
            asked = asked || one;
        }
        asked
    }
}
