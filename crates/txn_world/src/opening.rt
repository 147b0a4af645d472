//! The shards before the first step.

ghost use Rattle.std.specs.Prelude.{◌≡◌, ◌+◌, ◌≤◌, ◌<◌, ◌^◌, [], ◌∷◌, ◌++◌, length, OnOk};
ghost use Rattle.rss_machine.specs.State.{keys_from, shards_from};
ghost use Rattle.rss_tables.specs.ShardRow.{opening_shard};
ghost use Rattle.txn_world.specs.Shards.{shards_in, key_at};

use pipeline_lang::Config;
use rss_names::{Key, ServiceId, ShardId};
use std::alloc::{AllocError, Global};
use txn_shard::Shard;

/// Appends the shards of a file, in order.
#[tactic(auto, using(crate::proofs::Openings::shards_more))]
pub fn add_shards(alloc: Global, shards: &mut Vec<Shard>, config: &Config) -> Result<(), AllocError>
    requires keys { length config.now.homes < 2 ^ 16 }
    requires shards { length config.now.shard_services ≤ 16 }
    requires none { shards.old.items ≡ [] }
    ensures { OnOk result (shards_in shards.new.items ≡ shards_from config.now 1 config.now.shard_services) }
{
    let homes = config.homes.as_slice();
    let services = config.shard_services.as_slice();
    for at in 0..services.len() {
        add_shard(alloc, shards, homes, services[at], at as u8 + 1)?;
    }
    Ok(())
}

// Appends the shard of a number.
fn add_shard(
    alloc: Global,
    shards: &mut Vec<Shard>,
    homes: &[ShardId],
    service: ServiceId,
    number: u8,
) -> Result<(), AllocError>
    requires keys { length homes.now < 2 ^ 16 }
    ensures { OnOk result (shards_in shards.new.items ≡ shards_in shards.old.items ++ opening_shard (keys_from service number homes.now 0) ∷ []) }
{
    let mut keys = Vec::new(alloc);
    add_keys(&mut keys, homes, service, number)?;
    push_shard(alloc, shards, keys.as_slice())
}

// Appends a shard of these keys.
#[tactic(auto, using(crate::proofs::Openings::shards_end))]
fn push_shard(alloc: Global, shards: &mut Vec<Shard>, keys: &[Key]) -> Result<(), AllocError>
    ensures { OnOk result (shards_in shards.new.items ≡ shards_in shards.old.items ++ opening_shard keys.now ∷ []) }
{
    let shard = Shard::new(alloc, keys)?;
    shards.push(shard)?;
    Ok(())
}

// Appends the keys that live on a shard.
#[tactic(auto, using(crate::proofs::Openings::keys_more))]
fn add_keys(
    keys: &mut Vec<Key>,
    homes: &[ShardId],
    service: ServiceId,
    number: u8,
) -> Result<(), AllocError>
    requires keys { length homes.now < 2 ^ 16 }
    requires none { keys.old.items ≡ [] }
    ensures { OnOk result (keys.new.items ≡ keys_from service number homes.now 0) }
{
    for at in 0..homes.len() {
        add_key(keys, homes[at], service, number, at as u16)?;
    }
    Ok(())
}

// Appends the key of an index, where its home is the shard of a number.
fn add_key(
    keys: &mut Vec<Key>,
    home: ShardId,
    service: ServiceId,
    number: u8,
    index: u16,
) -> Result<(), AllocError>
    ensures { OnOk result (keys.new.items ≡ keys.old.items ++ key_at service number home index) }
{
    if home.number() == number {
        keys.push(Key { service, index })?;
    }
    Ok(())
}
