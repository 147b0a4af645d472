//! Calls in order, numbered from 1.

ghost use Rattle.std.specs.Prelude.{◌≡◌, ◌<◌, ◌^◌, length, IfOk};
ghost use Rattle.rss_machine.specs.Places.{numbered as numbered_from};

use rss_machine::{KeyedCall, Placed};
use std::alloc::{AllocError, Global};

/// These calls, numbered from 1 on.
pub fn numbered(alloc: Global, calls: &[KeyedCall]) -> Result<Vec<Placed>, AllocError>
    requires few { length calls.now < 2 ^ 32 }
    ensures { IfOk result (λ places. places.items ≡ numbered_from 1 calls.now) }
{
    let mut places = Vec::new(alloc);
    for (before, keyed) in calls.iter().enumerate() {
        places.push(Placed {
            call: keyed.call,
            place: before as u32 + 1,
            finished: keyed.finished,
        })?;
    }
    Ok(places)
}
