//! Whether a list of calls is a candidate: an order of all ended calls and of some mutations.

ghost use Rattle.std.specs.Prelude.{◌≡◌, []};
ghost use Rattle.plain_model.specs.Listed.{has_call as is_listed, is_distinct_after};
ghost use Rattle.plain_model.specs.Orders.{end_within, ended_within as within, placeable, is_candidate as passes};

use crate::calls::{has_ended, is_mutation};
use rss_model::Entry;
use rss_names::CallId;

/// Whether a list of calls is a candidate.
pub(crate) fn is_candidate(h: &[Entry], c: &[CallId]) -> bool
    ensures { result ≡ passes h.now c.now }
{
    is_distinct(c) && ended_within(h, c) && are_placeable(h, c)
}

// Whether a call is in a list.
fn has_call(calls: &[CallId], call: CallId) -> bool
    ensures { result ≡ is_listed calls.now call }
{
    for listed in calls {
        if *listed == call {
            return true;
        }
    }
    false
}

// Whether no call is in the list twice.
fn is_distinct(calls: &[CallId]) -> bool
    ensures { result ≡ is_distinct_after [] calls.now }
{
    for (place, call) in calls.iter().enumerate() {
        if has_call(&calls[..place], *call) {
            return false;
        }
    }
    true
}

// Whether all ended calls are in the list.
fn ended_within(h: &[Entry], calls: &[CallId]) -> bool
    ensures { result ≡ within calls.now h.now }
{
    for entry in h {
        if !is_end_within(entry, calls) {
            return false;
        }
    }
    true
}

// Whether the call that an entry ends, if it ends one, is in the list.
fn is_end_within(entry: &Entry, calls: &[CallId]) -> bool
    ensures { result ≡ end_within calls.now entry.now }
{
    match entry {
        Entry::End(call, _) => has_call(calls, *call),
        _ => true,
    }
}

// Whether each call of the list has ended or is a mutation.
fn are_placeable(h: &[Entry], calls: &[CallId]) -> bool
    ensures { result ≡ placeable h.now calls.now }
{
    for call in calls {
        if !has_ended(h, *call) && !is_mutation(h, *call) {
            return false;
        }
    }
    true
}
