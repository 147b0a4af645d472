//! The session, and what is seen of it.

ghost use Rattle.std.specs.Prelude.{◌≡◌, ◌<◌, ◌≤◌, [], ◌∷◌, length, get_or, false, IfOk, IfSome, IfNone, vec_capacity};
ghost use Rattle.rss_tables.specs.Lines.{no_line, asleep_on as sleeps_on};
ghost use Rattle.rss_tables.specs.SnapshotSession.{snap_end};
ghost use Rattle.rss_tables.specs.TransactionSession.{shown_reply};
ghost use Rattle.shard_lines.specs.Flat.{AreHomed, IsPlace, has_line, home_in};
ghost use Rattle.snapshot_reads.specs.Session.{snap_of, opening_of};

use crate::snap::Snap;
use rss_model::Shown;
use rss_names::{Key, Seq, ShardId};
use rss_tables::SnapPhase;
use rss_wire::Holder;
use shard_lines::Lines;
use std::alloc::{AllocError, Global};
use std::marker::Model;
use truetime::Interval;

/// A snapshot's session. Its operation is kept by its owner, and given to each call. Contracts see what
/// the session keeps: the tables' session is `snap_of` of an operation and that. Lines are named by
/// their place.
pub struct Session {
    pub(crate) phase: SnapPhase,
    pub(crate) lines: Lines,
}

impl Drop for Session {
    fn drop(self) {
        let Session {
            phase: _phase,
            lines: _lines,
        } = self;
    }
}

impl Model for Session {
    ghost use Rattle.snapshot_reads.specs.Session.{SessionView};

    ghost Value = { SessionView };

    ghost view = { λ s. record { phase = s.phase; lines = s.lines.lines; room = s.lines.room; skips = s.lines.skips } };
}

impl Session {
    /// The session of an operation that has sent nothing yet, in a step with this reading. `homes` gives
    /// the shard of each key by its index. An `Err` is want of memory.
    pub fn new(
        alloc: Global,
        homes: &[ShardId],
        op: &Snap<'_>,
        at: Interval,
    ) -> Result<Session, AllocError>
        requires some { 0 < length op.now.keys.now }
        requires few { length op.now.keys.now ≤ 8 }
        requires homes { AreHomed homes.now op.now.keys.now }
        ensures { IfOk result (λ s. snap_of op.now s ≡ opening_of (home_in homes.now) op.now at) }
    {
        let lines = Lines::opening(alloc, homes, op.keys, &[])?;
        Ok(Session {
            phase: SnapPhase::First(at.latest().max(op.least)),
            lines,
        })
    }

    /// The place of a shard's line; `None` where the shard has none.
    pub fn place_of(&self, shard: ShardId) -> Option<usize>
        ensures found { IfSome result (λ at. IsPlace self.now.lines at shard) }
        ensures missing { IfNone result (has_line self.now.lines shard ≡ false) }
    {
        self.lines.place_of(shard)
    }

    /// How many lines there are.
    pub fn len(&self) -> usize
        ensures same { result ≡ length self.now.lines }
        ensures few { result ≤ 16 }
    {
        self.lines.len()
    }

    /// What an asleep line waits for; `None` where it is not asleep.
    pub fn asleep_on(&self, line: usize) -> Option<Holder>
        requires { line < length self.now.lines }
        ensures { result ≡ sleeps_on (get_or self.now.lines line no_line).state }
    {
        self.lines.asleep_on(line)
    }

    /// The snapshot time with which it has ended; `None` before the end.
    pub fn end(&self) -> Option<u64>
        ensures { result ≡ snap_end self.now.phase }
    {
        match self.phase {
            SnapPhase::Done(time) => Some(time),
            SnapPhase::First(_) => None,
            SnapPhase::Second(_) => None,
        }
    }

    /// What was shown of each key, in the operation's order, in an empty list with room for it. Takes no
    /// memory.
    pub fn reply(&self, op: &Snap<'_>, mut list: Vec<Shown>) -> Seq<Shown>
        requires empty { list.items ≡ [] }
        requires room { length op.now.keys.now ≤ vec_capacity list }
        ensures { result ≡ shown_reply op.now.keys.now self.now.lines }
    {
        for key in op.keys {
            list.push(self.shown(*key)).unwrap();
        }
        Seq::from_vec(list)
    }

    // What was shown of a key.
    fn shown(&self, key: Key) -> Shown
        ensures { shown_reply (key ∷ []) self.now.lines ≡ result ∷ [] }
    {
        let version = self.lines.version(key);
        Shown {
            key,
            value: version.value,
            writer: version.writer,
        }
    }
}
