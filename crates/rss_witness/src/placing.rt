//! The places of a World.

ghost use Rattle.std.specs.Prelude.{◌≡◌, IfOk};
ghost use Rattle.std.specs.List.Sorted.{IsPermutation, IsSortedByKey};
ghost use Rattle.rss_machine.specs.Places.{places_of};
ghost use Rattle.rss_witness.specs.Order.{key_of, key_order};

use crate::keys::keyed_calls;
use crate::numbering::numbered;
use event_world::World;
use rss_machine::{KeyedCall, Placed};
use std::alloc::{AllocError, Global};

/// The places of all placed calls, from place 1 on, and whether each has ended. A write is placed
/// once some replica has handled its store, and a read once it has ended. Its place is where it
/// stands in the one legal order: calls are ordered by the step in which they take effect, and at
/// equal steps by the order within their service. The only error is that memory is wanting.
pub fn places(alloc: Global, w: &World) -> Result<Vec<Placed>, AllocError>
    ensures { IfOk result (λ ps. ps.items ≡ places_of w.now.state) }
{
    let mut calls = keyed_calls(alloc, w)?;
    sort_by_keys(&mut calls);
    numbered(alloc, calls.as_slice())
}

// Puts calls in the order of their keys.
fn sort_by_keys(calls: &mut Vec<KeyedCall>)
    ensures all { IsPermutation calls.old.items calls.new.items }
    ensures sorted { IsSortedByKey key_of key_order calls.new.items }
{
    calls.sort_unstable_by_key(|c| c.key);
}
