//! The reading of operations.

ghost use Rattle.std.specs.Prelude.{◌≡◌, ◌++◌, ◌∷◌, [], MatchResult};
ghost use Rattle.history_text.specs.declared.stop.Stop.TheVariants as stop;
ghost use Rattle.history_text.specs.Reading.{Reads, Adds};
ghost use Rattle.history_text.specs.Operations.{key_at, keys_at, write_at, writes_at, read_at, written_at, snap_at, reads_at, txn_at, op_at};

use crate::formulas::{begins_guard, read_formula, read_when};
use crate::line::{Line, read_number};
use crate::named::{read_key, read_register};
use crate::stop::Stop;
use pipeline_lang::Config;
use rss_model::{Formula, Op};
use rss_names::{Key, Seq};
use std::alloc::Global;

/// Adds one item to others.
pub fn push<T: Copy>(items: &mut Vec<T>, item: T) -> Result<(), Stop>
    ensures { MatchResult result (λ _. items.new.items ≡ items.old.items ++ item ∷ []) (λ e. e ≡ stop.OutOfMemory) }
{
    match items.push(item) {
        Ok(()) => Ok(()),
        Err(_) => Err(Stop::OutOfMemory),
    }
}

/// Reads a key and adds it to others.
fn add_key(config: &Config, line: &mut Line, keys: &mut Vec<Key>) -> Result<(), Stop>
    ensures { Adds result keys.old.items keys.new.items line.new (key_at config.now line.old) }
{
    match read_key(config, line) {
        Ok(key) => push(keys, key),
        Err(stop) => Err(stop),
    }
}

/// Reads keys, with `, ` between.
fn read_keys(alloc: Global, config: &Config, line: &mut Line) -> Result<Seq<Key>, Stop>
    ensures { Reads result line.new (keys_at config.now line.old) }
{
    let mut keys = Vec::new(alloc);
    loop {
        match add_key(config, line, &mut keys) {
            Ok(()) => {}
            Err(stop) => return Err(stop),
        }
        if !line.takes(b", ") {
            return Ok(Seq::from_vec(keys));
        }
    }
}

/// Reads a write of a transaction.
#[tactic(auto, unfolding(crate::specs::Operations::write_at))]
fn read_write(config: &Config, line: &mut Line) -> Result<(Key, Formula), Stop>
    ensures { Reads result line.new (write_at config.now line.old) }
{
    let key = read_key(config, line)?;
    line.word(b" = ")?;
    let value = read_formula(line)?;
    Ok((key, value))
}

/// Reads a write of a transaction and adds it to others.
fn add_write(config: &Config, line: &mut Line, writes: &mut Vec<(Key, Formula)>) -> Result<(), Stop>
    ensures { Adds result writes.old.items writes.new.items line.new (write_at config.now line.old) }
{
    match read_write(config, line) {
        Ok(write) => push(writes, write),
        Err(stop) => Err(stop),
    }
}

/// Reads writes, with `, ` between.
fn read_writes(alloc: Global, config: &Config, line: &mut Line) -> Result<Seq<(Key, Formula)>, Stop>
    ensures { Reads result line.new (writes_at config.now line.old) }
{
    let mut writes = Vec::new(alloc);
    loop {
        match add_write(config, line, &mut writes) {
            Ok(()) => {}
            Err(stop) => return Err(stop),
        }
        if !line.takes(b", ") {
            return Ok(Seq::from_vec(writes));
        }
    }
}

/// Reads what stands behind `read `.
#[tactic(auto, unfolding(crate::specs::Operations::read_at))]
fn read_read(config: &Config, line: &mut Line) -> Result<Op, Stop>
    ensures { Reads result line.new (read_at config.now line.old) }
{
    let key = read_register(config, line)?;
    Ok(Op::Read(key))
}

/// Reads what stands behind `write `.
#[tactic(auto, unfolding(crate::specs::Operations::written_at))]
fn read_written(config: &Config, line: &mut Line) -> Result<Op, Stop>
    ensures { Reads result line.new (written_at config.now line.old) }
{
    let key = read_register(config, line)?;
    line.word(b" ")?;
    let value = read_number(line)?;
    Ok(Op::Write(key, value))
}

/// Reads what stands behind `snap `.
#[tactic(auto, unfolding(crate::specs::Operations::snap_at))]
fn read_snap(alloc: Global, config: &Config, line: &mut Line) -> Result<Op, Stop>
    ensures { Reads result line.new (snap_at config.now line.old) }
{
    let keys = read_keys(alloc, config, line)?;
    Ok(Op::Snap(keys))
}

/// Reads the keys that a transaction reads, if it reads any.
#[tactic(auto, unfolding(crate::specs::Operations::reads_at))]
fn read_reads(alloc: Global, config: &Config, line: &mut Line) -> Result<Seq<Key>, Stop>
    ensures { Reads result line.new (reads_at config.now line.old) }
{
    if line.begins(b" : ") || begins_guard(line) {
        return Ok(Seq::new(alloc));
    }
    line.word(b" ")?;
    read_keys(alloc, config, line)
}

/// Reads what stands behind `txn`.
#[tactic(auto, unfolding(crate::specs::Operations::txn_at))]
fn read_txn(alloc: Global, config: &Config, line: &mut Line) -> Result<Op, Stop>
    ensures { Reads result line.new (txn_at config.now line.old) }
{
    let keys = read_reads(alloc, config, line)?;
    let guard = read_when(line)?;
    line.word(b" : ")?;
    let writes = read_writes(alloc, config, line)?;
    Ok(Op::Txn(keys, guard, writes))
}

/// Reads an operation.
#[tactic(auto, unfolding(crate::specs::Operations::op_at))]
pub fn read_op(alloc: Global, config: &Config, line: &mut Line) -> Result<Op, Stop>
    ensures { Reads result line.new (op_at config.now line.old) }
{
    if line.takes(b"read ") {
        return read_read(config, line);
    }
    if line.takes(b"write ") {
        return read_written(config, line);
    }
    if line.takes(b"snap ") {
        return read_snap(alloc, config, line);
    }
    if line.takes(b"txn") {
        return read_txn(alloc, config, line);
    }
    Err(Stop::Misfit)
}
