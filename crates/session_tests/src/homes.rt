//! Three keys of one service, each on a shard of its own, and lists of shards and replies.

ghost use Rattle.std.specs.Prelude.{IsTrue};
ghost use Rattle.shard_lines.specs.Flat.{AreHomed};

use rss_names::{Attempt, Key, Seq, ServiceId, ShardId};
use rss_wire::{Holder, Version};
use std::alloc::{AllocError, Global};
use std::test::Fail;

/// A key on shard 1.
pub const X: Key = Key {
    service: ServiceId::Txn(1),
    index: 0,
};

/// A key on shard 2.
pub const Y: Key = Key {
    service: ServiceId::Txn(1),
    index: 1,
};

/// A key on shard 3.
pub const Z: Key = Key {
    service: ServiceId::Txn(1),
    index: 2,
};

/// The shard of a number.
pub fn shard(number: u8) -> Result<ShardId, Fail> {
    Ok(ShardId::new(number).ok_or(AllocError)?)
}

/// The shard of each of the three keys, by its index.
pub fn homes() -> Result<[ShardId; 3], Fail> {
    Ok([shard(1)?, shard(2)?, shard(3)?])
}

/// Whether each key has a home.
pub fn are_homed(homes: &[ShardId], keys: &[Key]) -> bool
    ensures { IsTrue result → AreHomed homes.now keys.now }
{
    for key in keys {
        match homes.get(key.index as usize) {
            Some(home) => {
                let _number = home.number();
            }
            None => return false,
        }
    }
    true
}

/// A list of one element.
pub fn one<T: Drop>(alloc: Global, element: T) -> Result<Seq<T>, Fail> {
    let mut list = Vec::new(alloc);
    list.reserve(1)?;
    list.push(element)?;
    Ok(Seq::from_vec(list))
}

/// A version of a key.
pub fn version(key: Key, value: u64, time: u64) -> (Key, Version) {
    (
        key,
        Version {
            value,
            time,
            writer: 1,
        },
    )
}

/// The first attempt of call 1, which shard 2 coordinates.
pub fn holder() -> Result<Holder, Fail> {
    Ok(Holder {
        attempt: Attempt { call: 1, k: 1 },
        coordinator: shard(2)?,
    })
}
