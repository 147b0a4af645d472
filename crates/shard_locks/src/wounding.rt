//! What a request for locks does with the holders in its way.

ghost use Rattle.std.specs.Prelude.{◌≡◌, ◌<◌, ◌≤◌, [], length, vec_len, vec_capacity};
ghost use Rattle.std.specs.List.{filter};
ghost use Rattle.shard_locks.specs.Holders.{without_holders, named_of, is_open};

use crate::conflict::is_wounded;
use crate::holders::HolderTable;
use rss_names::{Attempt, Key};
use rss_wire::Holder;

/// Lists those of the attempts in the way that the one that asks wounds. There is room for all.
pub fn list_wounded(
    in_way: &[Attempt],
    asking: Attempt,
    prepared: &[Attempt],
    wounded: &mut Vec<Attempt>,
)
    requires empty { vec_len wounded.old ≡ 0 }
    requires room { length in_way.now ≤ vec_capacity wounded.old }
    ensures listed { wounded.new.items ≡ filter (is_open prepared.now asking) in_way.now }
    ensures few { vec_len wounded.new ≤ length in_way.now }
{
    for attempt in in_way {
        if is_wounded(asking, prepared, *attempt) {
            wounded.push(*attempt).unwrap();
        }
    }
}

/// Takes the holders of attempts away.
pub fn remove_all(holders: &mut HolderTable, attempts: &[Attempt])
    ensures left { holders.new.holders ≡ without_holders holders.old.holders attempts.now }
    ensures room { holders.new.room ≡ holders.old.room }
{
    for attempt in attempts {
        holders.remove(*attempt);
    }
}

/// Lists those of the attempts in the way that still hold locks. There is room for all.
pub fn list_waiting(holders: &HolderTable, in_way: &[Attempt], waiting: &mut Vec<Holder>)
    requires empty { vec_len waiting.old ≡ 0 }
    requires room { length in_way.now ≤ vec_capacity waiting.old }
    ensures { waiting.new.items ≡ named_of holders.now.holders in_way.now }
{
    for attempt in in_way {
        if let Some(holder) = holders.find(*attempt) {
            let named = Holder {
                attempt: holder.attempt(),
                coordinator: holder.coordinator(),
            };
            waiting.push(named).unwrap();
        }
    }
}

/// A list with keys in it. There is room for them.
pub fn filled(mut list: Vec<Key>, keys: &[Key]) -> Vec<Key>
    requires empty { vec_len list ≡ 0 }
    requires room { length keys.now ≤ vec_capacity list }
    ensures { result.items ≡ keys.now }
{
    list.extend_from_slice(keys).unwrap();
    list
}
