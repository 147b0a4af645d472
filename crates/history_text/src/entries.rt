//! The reading of entries.

ghost use Rattle.std.specs.Prelude.{◌≡◌, ◌≤◌, true, IfOk};
ghost use Rattle.rss_model.specs.Operation.{reads_of};
ghost use Rattle.history_text.specs.Reading.{Reads, Adds, AddsAll, Gives};
ghost use Rattle.history_index.specs.Following.{may_follow};
ghost use Rattle.history_text.specs.Entries.{count_at, begin_at, shown_at, next_shown_at, more_shown_at, all_shown_at, reply_at, end_at, spawn_at, chunk_at, exit_at, message_at, give_at, get_at, how_at, over_at, entry_at, line_at, place_at};

use crate::following::may_stand;
use crate::line::{Line, read_number, read_ranged};
use crate::named::{key_name_of, read_pipe, read_stage};
use crate::operations::{push, read_op};
use crate::reading::Reading;
use crate::stop::Stop;
use pipeline_lang::Config;
use rss_model::{Entry, How, Op, Reply, Shown, Token};
use rss_names::{CallId, Key, Seq};
use std::alloc::Global;

/// The greatest number of a call or a chunk.
const MOST: u64 = (1 << 32) - 1;

/// Reads the number of a call or a chunk, at least 1.
fn read_count(line: &mut Line) -> Result<u32, Stop>
    ensures read { Reads result line.new (count_at line.old) }
    ensures low { IfOk result (λ n. 1 ≤ n) }
{
    match read_ranged(1, MOST, line) {
        Ok(number) => Ok(number as u32),
        Err(stop) => Err(stop),
    }
}

/// Reads the number of a call.
fn read_call(line: &mut Line) -> Result<CallId, Stop>
    ensures { Reads result line.new (count_at line.old) }
{
    match read_count(line) {
        Ok(number) => Ok(CallId::new(number).unwrap()),
        Err(stop) => Err(stop),
    }
}

/// Reads what stands behind `begin `.
#[tactic(auto, unfolding(crate::specs::Entries::begin_at))]
fn read_begin(alloc: Global, config: &Config, line: &mut Line) -> Result<Entry, Stop>
    ensures { Reads result line.new (begin_at config.now line.old) }
{
    let call = read_call(line)?;
    line.word(b" ")?;
    let stage = read_stage(config, line)?;
    line.word(b" ")?;
    let op = read_op(alloc, config, line)?;
    Ok(Entry::Begin(call, stage, op))
}

/// Reads what was shown of this key.
#[tactic(auto, unfolding(crate::specs::Entries::shown_at))]
fn read_shown(config: &Config, key: Key, line: &mut Line) -> Result<Shown, Stop>
    ensures { Reads result line.new (shown_at config.now key line.old) }
{
    line.word(key_name_of(config, key))?;
    line.word(b" = ")?;
    let value = read_number(line)?;
    line.word(b" by ")?;
    let writer = read_ranged(0, MOST, line)?;
    Ok(Shown {
        key,
        value,
        writer: writer as u32,
    })
}

/// Reads what was shown of this key, behind what was shown of another.
#[tactic(auto, unfolding(crate::specs::Entries::next_shown_at))]
fn read_next_shown(config: &Config, key: Key, line: &mut Line) -> Result<Shown, Stop>
    ensures { Reads result line.new (next_shown_at config.now key line.old) }
{
    line.word(b", ")?;
    read_shown(config, key, line)
}

/// Reads what was shown of this key, behind what was shown of another, and adds it.
fn add_shown(config: &Config, key: Key, line: &mut Line, reply: &mut Vec<Shown>) -> Result<(), Stop>
    ensures { Adds result reply.old.items reply.new.items line.new (next_shown_at config.now key line.old) }
{
    match read_next_shown(config, key, line) {
        Ok(shown) => push(reply, shown),
        Err(stop) => Err(stop),
    }
}

/// Reads what was shown of these keys, behind what was shown of another, and adds it.
#[tactic(auto, using(crate::proofs::Adding::shown_more, crate::proofs::Adding::shown_none, crate::proofs::Adding::shown_all), unfolding(crate::specs::Entries::more_shown_at))]
fn read_more_shown(
    config: &Config,
    keys: &[Key],
    line: &mut Line,
    reply: &mut Vec<Shown>,
) -> Result<(), Stop>
    ensures { AddsAll result reply.old.items reply.new.items line.new (more_shown_at config.now keys.now line.old) }
{
    for key in keys {
        match add_shown(config, *key, line, reply) {
            Ok(()) => {}
            Err(stop) => return Err(stop),
        }
    }
    Ok(())
}

/// Reads what was shown of these keys.
#[tactic(auto, unfolding(crate::specs::Entries::all_shown_at))]
fn read_all_shown(
    alloc: Global,
    config: &Config,
    keys: &[Key],
    line: &mut Line,
) -> Result<Reply, Stop>
    ensures { Reads result line.new (all_shown_at config.now keys.now line.old) }
{
    let mut reply = Vec::new(alloc);
    if let Some((first, more)) = keys.split_first() {
        line.word(b" ")?;
        let shown = read_shown(config, *first, line)?;
        push(&mut reply, shown)?;
        read_more_shown(config, more, line, &mut reply)?;
    }
    Ok(Seq::from_vec(reply))
}

/// Reads the reply to an operation.
fn read_reply_to(alloc: Global, config: &Config, op: &Op, line: &mut Line) -> Result<Reply, Stop>
    ensures { Reads result line.new (all_shown_at config.now (reads_of op.now) line.old) }
{
    match op {
        Op::Read(key) => read_all_shown(alloc, config, &[*key], line),
        Op::Write(_, _) => read_all_shown(alloc, config, &[], line),
        Op::Snap(keys) => read_all_shown(alloc, config, keys.as_slice(), line),
        Op::Txn(keys, _, _) => read_all_shown(alloc, config, keys.as_slice(), line),
    }
}

/// Reads the reply of a call that is open.
#[tactic(auto, unfolding(crate::specs::Entries::reply_at))]
fn read_reply(
    alloc: Global,
    config: &Config,
    above: &Reading,
    call: CallId,
    line: &mut Line,
) -> Result<Reply, Stop>
    ensures { Reads result line.new (reply_at config.now above.now call line.old) }
{
    match above.open_op(call) {
        Some(op) => read_reply_to(alloc, config, op, line),
        None => Err(Stop::Misfit),
    }
}

/// Reads what stands behind `end `.
#[tactic(auto, unfolding(crate::specs::Entries::end_at))]
fn read_end(alloc: Global, config: &Config, above: &Reading, line: &mut Line) -> Result<Entry, Stop>
    ensures { Reads result line.new (end_at config.now above.now line.old) }
{
    let call = read_call(line)?;
    let reply = read_reply(alloc, config, above, call, line)?;
    Ok(Entry::End(call, reply))
}

/// Reads what stands behind `chunk `.
#[tactic(auto, unfolding(crate::specs::Entries::chunk_at))]
fn read_chunk(config: &Config, line: &mut Line) -> Result<Token, Stop>
    ensures { Reads result line.new (chunk_at config.now line.old) }
{
    let pipe = read_pipe(config, line)?;
    line.word(b" ")?;
    let number = read_count(line)?;
    Ok(Token::Chunk(pipe, number))
}

/// Reads what stands behind `spawn `.
#[tactic(auto, unfolding(crate::specs::Entries::spawn_at))]
fn read_spawn(config: &Config, line: &mut Line) -> Result<Token, Stop>
    ensures { Reads result line.new (spawn_at config.now line.old) }
{
    let stage = read_stage(config, line)?;
    Ok(Token::Spawn(stage))
}

/// Reads what stands behind `exit `.
#[tactic(auto, unfolding(crate::specs::Entries::exit_at))]
fn read_exit(config: &Config, line: &mut Line) -> Result<Token, Stop>
    ensures { Reads result line.new (exit_at config.now line.old) }
{
    let stage = read_stage(config, line)?;
    Ok(Token::Exit(stage))
}

/// Reads a message.
#[tactic(auto, unfolding(crate::specs::Entries::message_at))]
fn read_message(config: &Config, line: &mut Line) -> Result<Token, Stop>
    ensures { Reads result line.new (message_at config.now line.old) }
{
    if line.takes(b"spawn ") {
        return read_spawn(config, line);
    }
    if line.takes(b"chunk ") {
        return read_chunk(config, line);
    }
    if line.takes(b"exit ") {
        return read_exit(config, line);
    }
    Err(Stop::Misfit)
}

/// Reads what stands behind `give `.
#[tactic(auto, unfolding(crate::specs::Entries::give_at))]
fn read_give(config: &Config, line: &mut Line) -> Result<Entry, Stop>
    ensures { Reads result line.new (give_at config.now line.old) }
{
    let stage = read_stage(config, line)?;
    line.word(b" ")?;
    let token = read_message(config, line)?;
    Ok(Entry::Give(stage, token))
}

/// Reads what stands behind `get `.
#[tactic(auto, unfolding(crate::specs::Entries::get_at))]
fn read_get(config: &Config, line: &mut Line) -> Result<Entry, Stop>
    ensures { Reads result line.new (get_at config.now line.old) }
{
    let stage = read_stage(config, line)?;
    line.word(b" ")?;
    let token = read_message(config, line)?;
    Ok(Entry::Get(stage, token))
}

/// Reads how a stage is over.
#[tactic(auto, unfolding(crate::specs::Entries::how_at))]
fn read_how(line: &mut Line) -> Result<How, Stop>
    ensures { Reads result line.new (how_at line.old) }
{
    if line.takes(b"exited") {
        return Ok(How::Exited);
    }
    if line.takes(b"killed") {
        return Ok(How::Killed);
    }
    if line.takes(b"unavailable") {
        return Ok(How::Unavailable);
    }
    Err(Stop::Misfit)
}

/// Reads what stands behind `over `.
#[tactic(auto, unfolding(crate::specs::Entries::over_at))]
fn read_over(config: &Config, line: &mut Line) -> Result<Entry, Stop>
    ensures { Reads result line.new (over_at config.now line.old) }
{
    let stage = read_stage(config, line)?;
    line.word(b" ")?;
    let how = read_how(line)?;
    Ok(Entry::Over(stage, how))
}

/// Reads an entry behind those above it.
#[tactic(auto, unfolding(crate::specs::Entries::entry_at))]
fn read_entry(
    alloc: Global,
    config: &Config,
    above: &Reading,
    line: &mut Line,
) -> Result<Entry, Stop>
    ensures { Reads result line.new (entry_at config.now above.now line.old) }
{
    if line.takes(b"begin ") {
        return read_begin(alloc, config, line);
    }
    if line.takes(b"end ") {
        return read_end(alloc, config, above, line);
    }
    if line.takes(b"give ") {
        return read_give(config, line);
    }
    if line.takes(b"get ") {
        return read_get(config, line);
    }
    if line.takes(b"over ") {
        return read_over(config, line);
    }
    Err(Stop::Misfit)
}

/// The entry that a line is, where it may stand behind those above it.
#[tactic(auto, unfolding(crate::specs::Entries::line_at))]
pub fn entry_of(
    alloc: Global,
    config: &Config,
    above: &Reading,
    bytes: &[u8],
) -> Result<Entry, Stop>
    ensures read { Gives result (line_at config.now above.now bytes.now) }
    ensures stands { IfOk result (λ e. may_follow above.now e ≡ true) }
{
    let mut line = Line::new(bytes);
    let entry = read_entry(alloc, config, above, &mut line)?;
    if line.is_empty() && may_stand(above, &entry) {
        Ok(entry)
    } else {
        Err(Stop::Misfit)
    }
}

/// The call that a line places.
#[tactic(auto, unfolding(crate::specs::Entries::place_at))]
pub fn placed_of(bytes: &[u8]) -> Result<CallId, Stop>
    ensures { Gives result (place_at bytes.now) }
{
    let mut line = Line::new(bytes);
    line.word(b"place ")?;
    let call = read_call(&mut line)?;
    if line.is_empty() {
        Ok(call)
    } else {
        Err(Stop::Misfit)
    }
}
