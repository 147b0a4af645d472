//! All lines of a call.

ghost use Rattle.std.specs.Prelude.{◌≡◌, ◌+◌, ◌<◌, ◌≤◌, map, length, get_or, false, IfSome, IfNone, IfOk, OnOk};
ghost use Rattle.rss_tables.specs.Lines.{no_line, with_line, in_state, all_answered as are_answered, all_awaiting, only_awaiting as one_awaits, asleep_on as sleeps_on, coordinator_of, shown_on, lines_of};
ghost use Rattle.rss_tables.specs.SnapshotSession.{asked_again, must_ask_again as must_ask};
ghost use Rattle.rss_tables.specs.declared.lines.LineState.TheVariants.{Answered};
ghost use Rattle.shard_lines.specs.Flat.{IsPlace, has_line, AreHomed, open_line, home_in, awaits_unless};
ghost use Rattle.rss_tables.specs.TransactionSession.{greatest_prepared as prepared_last, greatest_shown as shown_last};

use crate::flat::{FlatLine, Part};
use crate::{each, opening};
use rss_names::{Key, ShardId};
use rss_tables::LineState;
use rss_wire::{Holder, Skipped, Version};
use std::alloc::{AllocError, Global};
use std::marker::Model;

/// The lines of a call, by ascending shard: one at least and sixteen at most, each with eight keys at
/// most to read and to write. Contracts see the tables' list of lines, and for how many more versions
/// and skipped writers there is room. Lines are named by their place in the list.
pub struct Lines {
    lines: Vec<FlatLine>,
    keys: Vec<Key>,
    shown: Vec<(Key, Version)>,
    skipped: Vec<Skipped>,
}

impl Drop for Lines {
    fn drop(self) {
        let Lines {
            lines: _lines,
            keys: _keys,
            shown: _shown,
            skipped: _skipped,
        } = self;
    }
}

impl Model for Lines {
    ghost use Rattle.std.specs.Prelude.{◌-◌, ◌<◌, ◌≤◌, map, vec_len, vec_capacity};
    ghost use Rattle.shard_lines.specs.Flat.{LinesView, AreLines, read_line};

    ghost Value = { LinesView };

    ghost view = { λ l. record { lines = map (read_line l.keys.items l.shown.items l.skipped.items) l.lines.items; room = vec_capacity l.shown - vec_len l.shown; skips = vec_capacity l.skipped - vec_len l.skipped } };

    ghost invariant = { λ l. AreLines (vec_len l.keys) (vec_len l.shown) (vec_len l.skipped) l.lines.items × (0 < vec_len l.lines) × (vec_len l.lines ≤ 16) };
}

impl Lines {
    /// The lines of a call that reads and writes these keys, eight at most of each. `homes` gives the
    /// shard of each key by its index; a key past its end lives nowhere. An `Err` is want of memory.
    pub fn opening(
        alloc: Global,
        homes: &[ShardId],
        reads: &[Key],
        writes: &[Key],
    ) -> Result<Lines, AllocError>
        requires some { 0 < length writes.now + length reads.now }
        requires reads { length reads.now ≤ 8 }
        requires writes { length writes.now ≤ 8 }
        requires read_homes { AreHomed homes.now reads.now }
        requires written_homes { AreHomed homes.now writes.now }
        ensures { IfOk result (λ l. l.lines ≡ lines_of (home_in homes.now) reads.now writes.now) }
    {
        let mut lines = Vec::new(alloc);
        let mut keys = Vec::new(alloc);
        opening::add_lines(&mut lines, &mut keys, homes, reads, writes)?;
        Ok(Lines {
            lines,
            keys,
            shown: Vec::new(alloc),
            skipped: Vec::new(alloc),
        })
    }

    /// How many lines there are.
    #[tactic(auto, using(crate::proofs::Flats::lines_length))]
    pub fn len(&self) -> usize
        ensures same { result ≡ length self.now.lines }
        ensures some { 0 < result }
        ensures few { result ≤ 16 }
    {
        self.lines.len()
    }

    /// The state of a line.
    #[tactic(auto, using(crate::proofs::Flats::read_one))]
    pub fn state(&self, at: usize) -> LineState
        requires { at < length self.now.lines }
        ensures { result ≡ (get_or self.now.lines at no_line).state }
    {
        self.lines[at].state
    }

    /// A line is in another state, and all else is as it was.
    #[tactic(auto, using(crate::proofs::Flats::puts))]
    pub fn set_state(&mut self, at: usize, state: LineState)
        requires { at < length self.old.lines }
        ensures lines { self.new.lines ≡ with_line self.old.lines (in_state (get_or self.old.lines at no_line) state) }
        ensures room { self.new.room ≡ self.old.room }
        ensures skips { self.new.skips ≡ self.old.skips }
    {
        self.lines[at].state = state;
    }

    /// The place of a shard's line; `None` where the shard has none.
    #[tactic(auto, using(crate::proofs::Flats::views))]
    pub fn place_of(&self, shard: ShardId) -> Option<usize>
        ensures found { IfSome result (λ at. IsPlace self.now.lines at shard) }
        ensures missing { IfNone result (has_line self.now.lines shard ≡ false) }
    {
        each::place_of(self.lines.as_slice(), shard)
    }

    /// Whether all lines are answered.
    #[tactic(auto, using(crate::proofs::Flats::views))]
    pub fn all_answered(&self) -> bool
        ensures { result ≡ are_answered self.now.lines }
    {
        each::all_answered(self.lines.as_slice())
    }

    /// All lines await.
    #[tactic(auto, using(crate::proofs::Flats::views))]
    pub fn await_all(&mut self)
        ensures lines { self.new.lines ≡ all_awaiting self.old.lines }
        ensures room { self.new.room ≡ self.old.room }
        ensures skips { self.new.skips ≡ self.old.skips }
    {
        each::await_all(&mut self.lines);
    }

    /// One line awaits, and the others are dropped.
    #[tactic(auto, using(crate::proofs::Flats::views))]
    pub fn await_only(&mut self, shard: ShardId)
        ensures lines { self.new.lines ≡ one_awaits shard self.old.lines }
        ensures room { self.new.room ≡ self.old.room }
        ensures skips { self.new.skips ≡ self.old.skips }
    {
        each::await_only(&mut self.lines, shard);
    }

    /// A new attempt begins: all lines await, and nothing was shown or prepared yet.
    #[tactic(auto, using(crate::proofs::Flats::views))]
    pub fn open_again(&mut self)
        ensures lines { self.new.lines ≡ map open_line self.old.lines }
        ensures room { self.old.room ≤ self.new.room }
        ensures skips { self.new.skips ≡ self.old.skips }
    {
        each::open_all(&mut self.lines);
        self.shown.clear();
    }

    /// The greatest prepare time.
    #[tactic(auto, using(crate::proofs::Flats::views))]
    pub fn greatest_prepared(&self) -> u64
        ensures { result ≡ prepared_last self.now.lines }
    {
        each::greatest_prepared(self.lines.as_slice())
    }

    /// A line is answered, and shows versions. Takes no memory.
    pub fn grant(&mut self, at: usize, shown: &[(Key, Version)])
        requires inside { at < length self.old.lines }
        requires room { length shown.now ≤ self.old.room }
        ensures lines { self.new.lines ≡ with_line self.old.lines (in_state (record (get_or self.old.lines at no_line) { shown = shown.now }) Answered) }
        ensures room { self.old.room ≤ self.new.room + length shown.now }
        ensures skips { self.new.skips ≡ self.old.skips }
    {
        let part = Part {
            from: self.shown.len(),
            many: shown.len(),
        };
        each::extend(&mut self.shown, shown);
        let line = &mut self.lines[at];
        line.shown = part;
        line.state = LineState::Answered;
    }

    /// A line is answered, and its shard has prepared at a time.
    pub fn prepared(&mut self, at: usize, time: u64)
        requires inside { at < length self.old.lines }
        ensures lines { self.new.lines ≡ with_line self.old.lines (in_state (record (get_or self.old.lines at no_line) { prepare_time = time }) Answered) }
        ensures room { self.new.room ≡ self.old.room }
        ensures skips { self.new.skips ≡ self.old.skips }
    {
        let line = &mut self.lines[at];
        line.prepare_time = time;
        line.state = LineState::Answered;
    }

    /// Makes room for this many versions and skipped writers. An `Err` is want of memory, and the lines
    /// are as they were.
    pub fn make_room(&mut self, versions: usize, skipped: usize) -> Result<(), AllocError>
        ensures lines { self.new.lines ≡ self.old.lines }
        ensures room { OnOk result (versions ≤ self.new.room) }
        ensures skips { OnOk result (skipped ≤ self.new.skips) }
        ensures room_stays { self.old.room ≤ self.new.room }
        ensures skips_stay { self.old.skips ≤ self.new.skips }
    {
        self.shown.reserve(versions)?;
        self.skipped.reserve(skipped)
    }

    /// The keys that a line reads.
    #[tactic(auto, using(crate::proofs::Flats::views))]
    pub fn reads(&self, at: usize) -> &[Key]
        requires { at < length self.now.lines }
        ensures same { result.now ≡ (get_or self.now.lines at no_line).reads }
        ensures few { length result.now ≤ 8 }
    {
        let place = self.lines[at].reads;
        each::part_of(self.keys.as_slice(), place)
    }

    /// The keys that a line writes.
    #[tactic(auto, using(crate::proofs::Flats::views))]
    pub fn writes(&self, at: usize) -> &[Key]
        requires { at < length self.now.lines }
        ensures same { result.now ≡ (get_or self.now.lines at no_line).writes }
        ensures few { length result.now ≤ 8 }
    {
        let place = self.lines[at].writes;
        each::part_of(self.keys.as_slice(), place)
    }

    /// The shard of a line.
    #[tactic(auto, using(crate::proofs::Flats::views))]
    pub fn shard(&self, at: usize) -> ShardId
        requires { at < length self.now.lines }
        ensures { result ≡ (get_or self.now.lines at no_line).shard }
    {
        self.lines[at].shard
    }

    /// The version shown of a key; the opening version where none shows it.
    #[tactic(auto, using(crate::proofs::Flats::views))]
    pub fn version(&self, key: Key) -> Version
        ensures { result ≡ shown_on self.now.lines key }
    {
        each::version_on(self.lines.as_slice(), self.shown.as_slice(), key)
    }

    /// All lines await but that of a shard.
    #[tactic(auto, using(crate::proofs::Flats::views))]
    pub fn await_but(&mut self, shard: ShardId)
        ensures lines { self.new.lines ≡ map (awaits_unless shard) self.old.lines }
        ensures room { self.new.room ≡ self.old.room }
        ensures skips { self.new.skips ≡ self.old.skips }
    {
        each::await_but(&mut self.lines, shard);
    }

    /// The greatest time of the versions shown.
    #[tactic(auto, using(crate::proofs::Flats::views))]
    pub fn greatest_shown(&self) -> u64
        ensures { result ≡ shown_last self.now.lines }
    {
        each::greatest_shown(self.lines.as_slice(), self.shown.as_slice())
    }

    /// The coordinator: the least shard.
    pub fn coordinator(&self) -> ShardId
        ensures { result ≡ coordinator_of self.now.lines }
    {
        self.lines[0].shard
    }

    /// The place of the coordinator's line.
    pub fn first(&self) -> usize
        ensures { IsPlace self.now.lines result (coordinator_of self.now.lines) }
    {
        prove!(!self.lines.is_empty());
        0
    }

    /// What an asleep line waits for; `None` where it is not asleep.
    pub fn asleep_on(&self, at: usize) -> Option<Holder>
        requires { at < length self.now.lines }
        ensures { result ≡ sleeps_on (get_or self.now.lines at no_line).state }
    {
        match self.state(at) {
            LineState::Asleep(holder) => Some(holder),
            LineState::Awaiting => None,
            LineState::Answered => None,
            LineState::Inquiring(_) => None,
            LineState::Resolving(_, _) => None,
            LineState::Dropped => None,
        }
    }

    /// A line is answered, and shows versions and the writers that were passed by. Takes no memory.
    pub fn show(&mut self, at: usize, shown: &[(Key, Version)], skipped: &[Skipped])
        requires inside { at < length self.old.lines }
        requires room { length shown.now ≤ self.old.room }
        requires skips { length skipped.now ≤ self.old.skips }
        ensures lines { self.new.lines ≡ with_line self.old.lines (in_state (record (get_or self.old.lines at no_line) { shown = shown.now; skipped = skipped.now }) Answered) }
        ensures room { self.old.room ≤ self.new.room + length shown.now }
        ensures skips { self.old.skips ≤ self.new.skips + length skipped.now }
    {
        let versions = Part {
            from: self.shown.len(),
            many: shown.len(),
        };
        let writers = Part {
            from: self.skipped.len(),
            many: skipped.len(),
        };
        each::extend(&mut self.shown, shown);
        each::extend(&mut self.skipped, skipped);
        let line = &mut self.lines[at];
        line.shown = versions;
        line.skipped = writers;
        line.state = LineState::Answered;
    }

    /// Whether a line passed by a writer that may stand at or below a time.
    #[tactic(auto, using(crate::proofs::Flats::views))]
    pub fn must_ask_again(&self, at: usize, time: u64) -> bool
        requires { at < length self.now.lines }
        ensures { result ≡ must_ask time (get_or self.now.lines at no_line) }
    {
        let place = self.lines[at].skipped;
        each::may_stand_by(each::part_of(self.skipped.as_slice(), place), time)
    }

    /// The lines await that passed by a writer which may stand at or below a time.
    #[tactic(auto, using(crate::proofs::Flats::views))]
    pub fn ask_again(&mut self, time: u64)
        ensures lines { self.new.lines ≡ asked_again time self.old.lines }
        ensures room { self.new.room ≡ self.old.room }
        ensures skips { self.new.skips ≡ self.old.skips }
    {
        each::await_passed(&mut self.lines, self.skipped.as_slice(), time);
    }
}
