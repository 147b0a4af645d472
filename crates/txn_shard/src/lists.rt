//! The lists that replies show.

ghost use Rattle.std.specs.Prelude.{◌≡◌, ◌≤◌, length, vec_capacity};
ghost use Rattle.rss_tables.specs.Versions.{newest_of, versions_at};
ghost use Rattle.txn_shard.specs.Parts.{reply_of};

use rss_names::{Key, Seq};
use rss_wire::{Reply, Version};
use shard_locks::LockAnswer;
use shard_versions::Versions;

/// The newest versions of keys. The list has room for them; what it held is gone.
pub fn newest_versions(
    store: &Versions,
    keys: &[Key],
    mut list: Vec<(Key, Version)>,
) -> Seq<(Key, Version)>
    requires room { length keys.now ≤ vec_capacity list }
    ensures { result ≡ newest_of store.now.store keys.now }
{
    list.clear();
    for key in keys {
        list.push((*key, store.newest(*key))).unwrap();
    }
    Seq::from_vec(list)
}

/// The versions of keys at a time. The list has room for them; what it held is gone.
pub fn versions_at_time(
    store: &Versions,
    keys: &[Key],
    time: u64,
    mut list: Vec<(Key, Version)>,
) -> Seq<(Key, Version)>
    requires room { length keys.now ≤ vec_capacity list }
    ensures { result ≡ versions_at store.now.store keys.now time }
{
    list.clear();
    for key in keys {
        list.push((*key, store.at(*key, time))).unwrap();
    }
    Seq::from_vec(list)
}

/// The list with writes in it alone. It has room for them.
pub fn filled(mut list: Vec<(Key, u64)>, writes: &[(Key, u64)]) -> Seq<(Key, u64)>
    requires room { length writes.now ≤ vec_capacity list }
    ensures { result ≡ writes.now }
{
    list.clear();
    list.extend_from_slice(writes).unwrap();
    Seq::from_vec(list)
}

/// The answer to a request for locks as a reply.
pub fn reply_to(
    answer: LockAnswer,
    store: &Versions,
    reads: &[Key],
    list: Vec<(Key, Version)>,
) -> Reply
    requires room { length reads.now ≤ vec_capacity list }
    ensures { result ≡ reply_of answer store.now.store reads.now }
{
    match answer {
        LockAnswer::WoundedSelf => Reply::Wounded,
        LockAnswer::Wait(holders) => Reply::Wait { holders },
        LockAnswer::Granted => Reply::Granted {
            shown: newest_versions(store, reads, list),
        },
    }
}
