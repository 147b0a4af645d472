//! The keys by which placed calls are ordered.

ghost use Rattle.std.specs.Prelude.{◌≡◌, ◌<◌, ◌^◌, length, IfOk};
ghost use Rattle.rss_machine.specs.Places.{keyed_call as keyed_in, keyed_calls as all_keyed, has_ended as is_end};

use event_world::World;
use rss_machine::{KeyedCall, OwnerFate};
use rss_names::CallId;
use std::alloc::{AllocError, Global};

/// All placed calls with their keys, in the order of their numbers.
pub fn keyed_calls(alloc: Global, w: &World) -> Result<Vec<KeyedCall>, AllocError>
    ensures all { IfOk result (λ calls. calls.items ≡ all_keyed w.now.state) }
    ensures few { IfOk result (λ calls. length calls.items < 2 ^ 32) }
{
    let mut calls = Vec::new(alloc);
    for before in 0..w.calls() {
        let call = CallId::new(before + 1).unwrap();
        if let Some(keyed) = keyed_call(w, call) {
            calls.push(keyed)?;
        }
    }
    Ok(calls)
}

// A call with its key, if it is placed.
fn keyed_call(w: &World, call: CallId) -> Option<KeyedCall>
    ensures { result ≡ keyed_in w.now.state call }
{
    let key = w.place_key(call)?;
    Some(KeyedCall {
        key,
        call,
        finished: has_ended(w.fate(call)),
    })
}

// Whether an owner has ended.
fn has_ended(fate: OwnerFate) -> bool
    ensures { result ≡ is_end fate }
{
    match fate {
        OwnerFate::Ended => true,
        OwnerFate::Running | OwnerFate::Dropped | OwnerFate::CutOff(_) => false,
    }
}
