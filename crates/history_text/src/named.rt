//! Names of a pipeline file.

ghost use Rattle.std.specs.Prelude.{◌≡◌, [], get_or};
ghost use Rattle.pipeline_lang.specs.Config.{home_of, service_of_register, service_of_shard, key_name};
ghost use Rattle.history_text.specs.Reading.{Reads, token_at};
ghost use Rattle.history_text.specs.Named.{position_named, register_named, shard_key_named, stage_named, pipe_named};

use crate::line::Line;
use crate::stop::Stop;
use pipeline_lang::{Config, NameTable};
use rss_names::{Key, Name, ServiceId, StageId};

/// The position of a name in a table, from 0.
fn position_of(names: &NameTable, word: &[u8]) -> Option<u16>
    ensures { result ≡ position_named names.now word.now }
{
    match Name::read(word) {
        Ok(name) => names.position(&name),
        Err(_) => None,
    }
}

/// The service of a register, by its position.
fn register_service(config: &Config, index: u16) -> ServiceId
    ensures { result ≡ service_of_register config.now index }
{
    match config.register_services.get(index as usize) {
        Some(service) => *service,
        None => ServiceId::Reg(0),
    }
}

/// The register of a name.
fn register_of(config: &Config, word: &[u8]) -> Option<Key>
    ensures { result ≡ register_named config.now word.now }
{
    let index = position_of(&config.registers, word)?;
    let service = register_service(config, index);
    Some(Key { service, index })
}

/// The shard of a key of a transaction service, by the key's position, or 0.
fn home_number(config: &Config, index: u16) -> u8
    ensures { result ≡ home_of config.now index }
{
    match config.homes.get(index as usize) {
        Some(shard) => shard.number(),
        None => 0,
    }
}

/// The service of a shard, by its number.
fn service_of(config: &Config, shard: u8) -> ServiceId
    ensures { result ≡ service_of_shard config.now shard }
{
    match config
        .shard_services
        .get((shard as usize).saturating_sub(1))
    {
        Some(service) => *service,
        None => ServiceId::Txn(0),
    }
}

/// The key of a transaction service of a name.
fn shard_key_of(config: &Config, word: &[u8]) -> Option<Key>
    ensures { result ≡ shard_key_named config.now word.now }
{
    let index = position_of(&config.keys, word)?;
    let service = service_of(config, home_number(config, index));
    Some(Key { service, index })
}

/// The stage of a name.
fn stage_of(config: &Config, word: &[u8]) -> Option<StageId>
    ensures { result ≡ stage_named config.now word.now }
{
    let index = position_of(&config.stages, word)?;
    if index < 16 {
        StageId::new(index as u8 + 1)
    } else {
        None
    }
}

/// The pipe of a name.
fn pipe_of(config: &Config, word: &[u8]) -> Option<u8>
    ensures { result ≡ pipe_named config.now word.now }
{
    let index = position_of(&config.pipes, word)?;
    if index < 255 {
        Some(index as u8 + 1)
    } else {
        None
    }
}

/// Reads the name of a register.
pub fn read_register(config: &Config, line: &mut Line) -> Result<Key, Stop>
    ensures { Reads result line.new (token_at (register_named config.now) line.old) }
{
    match register_of(config, line.token()) {
        Some(key) => Ok(key),
        None => Err(Stop::Misfit),
    }
}

/// Reads the name of a transaction service's key.
pub fn read_key(config: &Config, line: &mut Line) -> Result<Key, Stop>
    ensures { Reads result line.new (token_at (shard_key_named config.now) line.old) }
{
    match shard_key_of(config, line.token()) {
        Some(key) => Ok(key),
        None => Err(Stop::Misfit),
    }
}

/// Reads the name of a stage.
pub fn read_stage(config: &Config, line: &mut Line) -> Result<StageId, Stop>
    ensures { Reads result line.new (token_at (stage_named config.now) line.old) }
{
    match stage_of(config, line.token()) {
        Some(stage) => Ok(stage),
        None => Err(Stop::Misfit),
    }
}

/// Reads the name of a pipe.
pub fn read_pipe(config: &Config, line: &mut Line) -> Result<u8, Stop>
    ensures { Reads result line.new (token_at (pipe_named config.now) line.old) }
{
    match pipe_of(config, line.token()) {
        Some(pipe) => Ok(pipe),
        None => Err(Stop::Misfit),
    }
}

/// The name at a position of a table, and no bytes where there is none.
fn name_at(names: &NameTable, position: u16) -> &[u8]
    ensures { result.now ≡ get_or names.now position [] }
{
    match names.name(position) {
        Some(name) => name.bytes(),
        None => &[],
    }
}

/// The name of a key or register.
pub fn key_name_of(config: &Config, key: Key) -> &[u8]
    ensures { result.now ≡ key_name config.now key }
{
    match key.service {
        ServiceId::Txn(_) => name_at(&config.keys, key.index),
        ServiceId::Reg(_) => name_at(&config.registers, key.index),
    }
}
