//! Making the writes of a committed attempt versions.

ghost use Rattle.std.specs.Prelude.{◌≡◌, true, ℕ, List, OnOk};
ghost use Rattle.rss_tables.specs.ShardRow.{applied};
ghost use Rattle.rss_names.specs.declared.service.Key.{Key as AnyKey};
ghost use Rattle.txn_shard.specs.Applying.{can_apply, can_apply_one, applied_one, have_room};

use rss_names::Key;
use rss_wire::Version;
use shard_versions::Versions;
use std::alloc::AllocError;

/// Makes writes versions at a time, by a call, but for keys that have a later one. There is room for
/// them.
pub fn apply(store: &mut Versions, call: u32, time: u64, writes: &[(Key, u64)])
    requires room { can_apply store.old time writes.now ≡ true }
    ensures { store.new.store ≡ applied store.old.store call time writes.now }
{
    for write in writes {
        apply_one(store, call, time, write.0, write.1);
    }
}

// Makes one write a version.
#[tactic(auto, using(crate::proofs::Applied::staying))]
fn apply_one(store: &mut Versions, call: u32, time: u64, key: Key, value: u64)
    requires room { can_apply_one store.old time key ≡ true }
    ensures applied { store.new.store ≡ applied_one store.old.store call time key value }
    ensures others { (writes : List (AnyKey × ℕ)) → can_apply store.old time writes ≡ true → can_apply store.new time writes ≡ true }
{
    if !store.is_written_since(key, time) {
        let version = Version {
            value,
            time,
            writer: call,
        };
        store.push(key, version);
    }
}

/// Makes room for one more version of each key written.
pub fn make_version_room(store: &mut Versions, writes: &[(Key, u64)]) -> Result<(), AllocError>
    ensures same { store.new.store ≡ store.old.store }
    ensures room { OnOk result (have_room store.new writes.now ≡ true) }
{
    for write in writes {
        store.make_room(write.0)?;
    }
    Ok(())
}
