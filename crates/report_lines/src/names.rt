//! The names of stages, shards, pipes and keys.

ghost use Rattle.std.specs.Prelude.{◌≡◌, ◌++◌, [], OnOk, get_or};
ghost use Rattle.pipeline_lang.specs.Config.{stage_name, shard_name, pipe_name, key_name};

use crate::text::put;
use pipeline_lang::{Config, NameTable};
use rss_names::{Key, ServiceId, ShardId, StageId};
use std::alloc::AllocError;

/// Appends the name at a position of a table, from 0; nothing where there is none.
fn put_name(out: &mut Vec<u8>, table: &NameTable, position: usize) -> Result<(), AllocError>
    ensures { OnOk result (out.new.items ≡ out.old.items ++ get_or table.now position []) }
{
    if position >= table.len() {
        return Ok(());
    }
    match table.name(position as u16) {
        Some(name) => put(out, name.bytes()),
        None => Ok(()),
    }
}

/// Appends the name of a stage.
pub fn put_stage(out: &mut Vec<u8>, config: &Config, stage: StageId) -> Result<(), AllocError>
    ensures { OnOk result (out.new.items ≡ out.old.items ++ stage_name config.now stage) }
{
    put_name(out, &config.stages, usize::from(stage.number()) - 1)
}

/// Appends the name of a shard.
pub fn put_shard(out: &mut Vec<u8>, config: &Config, shard: ShardId) -> Result<(), AllocError>
    ensures { OnOk result (out.new.items ≡ out.old.items ++ shard_name config.now shard) }
{
    put_name(out, &config.shards, usize::from(shard.number()) - 1)
}

/// Appends the name of a pipe, by its number from 1.
pub fn put_pipe(out: &mut Vec<u8>, config: &Config, pipe: u8) -> Result<(), AllocError>
    ensures { OnOk result (out.new.items ≡ out.old.items ++ pipe_name config.now pipe) }
{
    put_name(out, &config.pipes, usize::from(pipe).saturating_sub(1))
}

/// Appends the name of a key or register.
pub fn put_key(out: &mut Vec<u8>, config: &Config, key: Key) -> Result<(), AllocError>
    ensures { OnOk result (out.new.items ≡ out.old.items ++ key_name config.now key) }
{
    match key.service {
        ServiceId::Txn(_) => put_name(out, &config.keys, usize::from(key.index)),
        ServiceId::Reg(_) => put_name(out, &config.registers, usize::from(key.index)),
    }
}
