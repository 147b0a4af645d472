//! The lines of a call before anything was asked.

ghost use Rattle.std.specs.Prelude.{◌≡◌, ◌+◌, ◌<◌, ◌≤◌, ◌++◌, [], map, length, get_or, OnOk, vec_len};
ghost use Rattle.rss_tables.specs.Lines.{keys_on, line_before, lines_of};
ghost use Rattle.shard_lines.specs.Flat.{read_line, AreLines, AreBelow, AreHomed, home_in};

use crate::flat::{FlatLine, Part};
use rss_names::{Key, MOST_SHARDS, ShardId};
use rss_tables::LineState;
use std::alloc::AllocError;

/// Appends the keys that live on a shard.
#[tactic(auto, using(crate::proofs::Openings::keys_more))]
pub fn push_on(
    keys: &mut Vec<Key>,
    homes: &[ShardId],
    shard: ShardId,
    from: &[Key],
) -> Result<(), AllocError>
    ensures keys { OnOk result (keys.new.items ≡ keys.old.items ++ keys_on (home_in homes.now) shard from.now) }
    ensures few { OnOk result (vec_len keys.new ≤ vec_len keys.old + length from.now) }
{
    for key in from {
        if home(homes, *key) == shard.number() {
            keys.push(*key)?;
        }
    }
    Ok(())
}

fn home(homes: &[ShardId], key: Key) -> u8
    ensures { result ≡ home_in homes.now key.index }
{
    match homes.get(key.index as usize) {
        Some(home) => home.number(),
        None => 0,
    }
}

/// Appends the line of a shard, where it has a key.
pub fn add_line(
    lines: &mut Vec<FlatLine>,
    keys: &mut Vec<Key>,
    homes: &[ShardId],
    shard: ShardId,
    reads: &[Key],
    writes: &[Key],
) -> Result<(), AllocError>
    requires lines { AreLines (vec_len keys.old) 0 0 lines.old.items }
    requires below { AreBelow shard lines.old.items }
    requires few_reads { length reads.now ≤ 8 }
    requires few_writes { length writes.now ≤ 8 }
    ensures added { OnOk result (map (read_line keys.new.items [] []) lines.new.items ≡ map (read_line keys.old.items [] []) lines.old.items ++ line_before shard (keys_on (home_in homes.now) shard reads.now) (keys_on (home_in homes.now) shard writes.now) []) }
    ensures lines { OnOk result (AreLines (vec_len keys.new) 0 0 lines.new.items) }
    ensures below { OnOk result (AreBelow (shard + 1) lines.new.items) }
    ensures few { OnOk result (vec_len lines.new ≤ vec_len lines.old + 1) }
{
    let from = keys.len();
    push_on(keys, homes, shard, reads)?;
    let middle = keys.len();
    push_on(keys, homes, shard, writes)?;
    let end = keys.len();
    if end > from {
        let line = FlatLine {
            shard,
            reads: Part {
                from,
                many: middle - from,
            },
            writes: Part {
                from: middle,
                many: end - middle,
            },
            state: LineState::Awaiting,
            shown: Part { from: 0, many: 0 },
            skipped: Part { from: 0, many: 0 },
            prepare_time: 0,
        };
        lines.push(line)?;
    }
    Ok(())
}

// Appends the line of the shard of a number.
fn add_number(
    lines: &mut Vec<FlatLine>,
    keys: &mut Vec<Key>,
    homes: &[ShardId],
    number: u8,
    reads: &[Key],
    writes: &[Key],
) -> Result<(), AllocError>
    requires number { (1 ≤ number) × (number ≤ 16) }
    requires lines { AreLines (vec_len keys.old) 0 0 lines.old.items }
    requires below { AreBelow number lines.old.items }
    requires few_reads { length reads.now ≤ 8 }
    requires few_writes { length writes.now ≤ 8 }
    ensures added { OnOk result (map (read_line keys.new.items [] []) lines.new.items ≡ map (read_line keys.old.items [] []) lines.old.items ++ line_before number (keys_on (home_in homes.now) number reads.now) (keys_on (home_in homes.now) number writes.now) []) }
    ensures lines { OnOk result (AreLines (vec_len keys.new) 0 0 lines.new.items) }
    ensures below { OnOk result (AreBelow (number + 1) lines.new.items) }
    ensures few { OnOk result (vec_len lines.new ≤ vec_len lines.old + 1) }
{
    match ShardId::new(number) {
        Some(shard) => add_line(lines, keys, homes, shard, reads, writes),
        None => Ok(()),
    }
}

/// Appends the lines of all shards.
#[tactic(auto, using(crate::proofs::Openings::lines_more))]
pub fn add_lines(
    lines: &mut Vec<FlatLine>,
    keys: &mut Vec<Key>,
    homes: &[ShardId],
    reads: &[Key],
    writes: &[Key],
) -> Result<(), AllocError>
    requires no_lines { lines.old.items ≡ [] }
    requires no_keys { keys.old.items ≡ [] }
    requires some { 0 < length writes.now + length reads.now }
    requires few_reads { length reads.now ≤ 8 }
    requires few_writes { length writes.now ≤ 8 }
    requires read_homes { AreHomed homes.now reads.now }
    requires written_homes { AreHomed homes.now writes.now }
    ensures added { OnOk result (map (read_line keys.new.items [] []) lines.new.items ≡ lines_of (home_in homes.now) reads.now writes.now) }
    ensures lines { OnOk result (AreLines (vec_len keys.new) 0 0 lines.new.items) }
    ensures some { OnOk result (0 < vec_len lines.new) }
    ensures few { OnOk result (vec_len lines.new ≤ 16) }
{
    for at in 0..MOST_SHARDS {
        add_number(lines, keys, homes, at + 1, reads, writes)?;
    }
    Ok(())
}
