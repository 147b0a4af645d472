//! What is done to each line, and asked of all.

ghost use Rattle.std.specs.Prelude.{◌≡◌, ◌+◌, ◌<◌, ◌≤◌, false, map, length, get_or, vec_len, vec_capacity, ◌++◌, IfSome, IfNone};
ghost use Rattle.rss_tables.specs.Lines.{version_in as shown_in, is_answered as is_done};
ghost use Rattle.rss_tables.specs.TransactionSession.{greatest_time as last_time};
ghost use Rattle.shard_lines.specs.Flat.{awaiting, awaiting_one, awaiting_but, awaiting_passed, opened, are_answered, last_prepared, last_shown, may_stand_by as stands_by, HasShard, has_flat, AreShown, AreSkips, version_of, part};

use crate::flat::{FlatLine, Part};
use rss_names::{Key, ShardId, is_same_key};
use rss_tables::LineState;
use rss_wire::{Skipped, Version};

/// The place of a shard's line.
pub fn place_of(lines: &[FlatLine], shard: ShardId) -> Option<usize>
    ensures found { IfSome result (λ at. HasShard lines.now at shard) }
    ensures missing { IfNone result (has_flat lines.now shard ≡ false) }
{
    for at in 0..lines.len() {
        if lines[at].shard == shard {
            return Some(at);
        }
    }
    None
}

/// All lines await.
#[tactic(auto, using(crate::proofs::Eaches::mapping))]
pub fn await_all(lines: &mut Vec<FlatLine>)
    ensures items { lines.new.items ≡ map awaiting lines.old.items }
    ensures len { vec_len lines.new ≡ vec_len lines.old }
{
    for line in lines.iter_mut() {
        line.state = LineState::Awaiting;
    }
}

/// One line awaits, and the others are dropped.
#[tactic(auto, using(crate::proofs::Eaches::mapping))]
pub fn await_only(lines: &mut Vec<FlatLine>, shard: ShardId)
    ensures items { lines.new.items ≡ map (awaiting_one shard) lines.old.items }
    ensures len { vec_len lines.new ≡ vec_len lines.old }
{
    for line in lines.iter_mut() {
        await_or_drop(line, shard);
    }
}

fn await_or_drop(line: &mut FlatLine, shard: ShardId)
    ensures { line.new ≡ awaiting_one shard line.old }
{
    line.state = if line.shard == shard {
        LineState::Awaiting
    } else {
        LineState::Dropped
    };
}

/// All lines are as they were at first.
#[tactic(auto, using(crate::proofs::Eaches::mapping))]
pub fn open_all(lines: &mut Vec<FlatLine>)
    ensures items { lines.new.items ≡ map opened lines.old.items }
    ensures len { vec_len lines.new ≡ vec_len lines.old }
{
    for line in lines.iter_mut() {
        line.state = LineState::Awaiting;
        line.shown = Part { from: 0, many: 0 };
        line.prepare_time = 0;
    }
}

/// Whether all lines are answered.
pub fn all_answered(lines: &[FlatLine]) -> bool
    ensures { result ≡ are_answered lines.now }
{
    for line in lines {
        if !is_answered(&line.state) {
            return false;
        }
    }
    true
}

fn is_answered(state: &LineState) -> bool
    ensures { result ≡ is_done state.now }
{
    matches!(state, LineState::Answered)
}

/// The greatest prepare time.
pub fn greatest_prepared(lines: &[FlatLine]) -> u64
    ensures { result ≡ last_prepared lines.now }
{
    let mut greatest = 0;
    for line in lines {
        if greatest < line.prepare_time {
            greatest = line.prepare_time;
        }
    }
    greatest
}

/// The version shown of a key.
pub fn version_in(shown: &[(Key, Version)], key: Key) -> Option<Version>
    ensures { result ≡ shown_in shown.now key }
{
    for entry in shown {
        if is_same_key(entry.0, key) {
            return Some(entry.1);
        }
    }
    None
}

/// A part of a list.
#[tactic(auto, using(crate::proofs::Eaches::part_size))]
pub fn part_of<T>(items: &[T], place: Part) -> &[T]
    requires { place.from + place.many ≤ length items.now }
    ensures same { result.now ≡ part items.now place }
    ensures size { length result.now ≤ place.many }
{
    &items[place.from..place.from + place.many]
}

/// The version that lines show of a key; the opening version where none shows it.
pub fn version_on(lines: &[FlatLine], shown: &[(Key, Version)], key: Key) -> Version
    requires inside { AreShown (length shown.now) lines.now }
    ensures { result ≡ version_of shown.now lines.now key }
{
    for line in lines {
        if let Some(version) = version_in(part_of(shown, line.shown), key) {
            return version;
        }
    }
    OPENING
}

const OPENING: Version = Version {
    value: 0,
    time: 0,
    writer: 0,
};

/// Puts items behind others. Takes no memory.
pub fn extend<T: Copy>(items: &mut Vec<T>, more: &[T])
    requires room { vec_len items.old + length more.now ≤ vec_capacity items.old }
    ensures items { items.new.items ≡ items.old.items ++ more.now }
    ensures len { vec_len items.new ≡ vec_len items.old + length more.now }
    ensures capacity { vec_capacity items.old ≤ vec_capacity items.new }
{
    items.extend_from_slice(more).unwrap();
}

/// All lines await but that of a shard.
#[tactic(auto, using(crate::proofs::Eaches::mapping))]
pub fn await_but(lines: &mut Vec<FlatLine>, shard: ShardId)
    ensures items { lines.new.items ≡ map (awaiting_but shard) lines.old.items }
    ensures len { vec_len lines.new ≡ vec_len lines.old }
{
    for line in lines.iter_mut() {
        await_unless(line, shard);
    }
}

fn await_unless(line: &mut FlatLine, shard: ShardId)
    ensures { line.new ≡ awaiting_but shard line.old }
{
    if line.shard != shard {
        line.state = LineState::Awaiting;
    }
}

/// The greatest time of versions.
pub fn greatest_time(shown: &[(Key, Version)]) -> u64
    ensures { result ≡ last_time shown.now }
{
    let mut greatest = 0;
    for entry in shown {
        if greatest < entry.1.time {
            greatest = entry.1.time;
        }
    }
    greatest
}

/// The greatest time that lines show.
pub fn greatest_shown(lines: &[FlatLine], shown: &[(Key, Version)]) -> u64
    requires inside { AreShown (length shown.now) lines.now }
    ensures { result ≡ last_shown shown.now lines.now }
{
    let mut greatest = 0;
    for line in lines {
        let time = greatest_time(part_of(shown, line.shown));
        if greatest < time {
            greatest = time;
        }
    }
    greatest
}

/// Whether a writer that was passed by may stand at or below a time.
pub fn may_stand_by(skipped: &[Skipped], time: u64) -> bool
    ensures { result ≡ stands_by time skipped.now }
{
    for one in skipped {
        if one.prepare_time <= time {
            return true;
        }
    }
    false
}

/// The lines await that passed by a writer which may stand at or below a time.
#[tactic(auto, using(crate::proofs::Eaches::mapping))]
pub fn await_passed(lines: &mut Vec<FlatLine>, skipped: &[Skipped], time: u64)
    requires inside { AreSkips (length skipped.now) lines.old.items }
    ensures items { lines.new.items ≡ map (awaiting_passed skipped.now time) lines.old.items }
    ensures len { vec_len lines.new ≡ vec_len lines.old }
{
    for line in lines.iter_mut() {
        await_if_passed(line, skipped, time);
    }
}

fn await_if_passed(line: &mut FlatLine, skipped: &[Skipped], time: u64)
    requires inside { line.old.skipped.from + line.old.skipped.many ≤ length skipped.now }
    ensures { line.new ≡ awaiting_passed skipped.now time line.old }
{
    if may_stand_by(part_of(skipped, line.skipped), time) {
        line.state = LineState::Awaiting;
    }
}
