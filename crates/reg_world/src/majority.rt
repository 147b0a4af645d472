//! Which stamps a majority of replicas holds.

ghost use Rattle.std.specs.Prelude.{◌≡◌, length};
ghost use Rattle.rss_machine.specs.Marks.{count_holders as holders_of, is_held as held, greatest_held as greatest_of, majority_stamp as majority_of};

use carstamps::Carstamp;
use reg_replica::Replica;
use rss_names::Key;

/// The greatest stamp of a register that a majority of the replicas holds.
pub fn majority_stamp(replicas: &[Replica], key: Key) -> Carstamp
    ensures { result ≡ majority_of replicas.now key }
{
    greatest_held(replicas, key, replicas)
}

// The greatest stamp of some of the replicas that a majority of all holds.
fn greatest_held(replicas: &[Replica], key: Key, some: &[Replica]) -> Carstamp
    ensures { result ≡ greatest_of replicas.now key some.now }
{
    match some.split_first() {
        Some((first, rest)) => {
            let best = greatest_held(replicas, key, rest);
            let stamp = first.stamp(key);
            if is_held(replicas, key, stamp) {
                carstamps::greatest_of(stamp, best)
            } else {
                best
            }
        }
        None => Carstamp::ZERO,
    }
}

// Whether a majority of the replicas holds this stamp or a greater one.
fn is_held(replicas: &[Replica], key: Key, stamp: Carstamp) -> bool
    ensures { result ≡ held replicas.now key stamp }
{
    count_holders(replicas, key, stamp) > replicas.len() / 2
}

// How many of the replicas hold this stamp or a greater one.
fn count_holders(replicas: &[Replica], key: Key, stamp: Carstamp) -> usize
    ensures { result ≡ holders_of key stamp replicas.now }
{
    let mut count = 0;
    for replica in replicas {
        if !stamp.is_above(replica.stamp(key)) {
            count += 1;
        }
    }
    count
}
