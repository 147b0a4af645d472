//! The places of calls in an order, and whether an order is a candidate.

ghost use Rattle.std.specs.Prelude.{◌≡◌, ◌≢◌, ◌↔◌, ℕ, cond, nat_eq, AllPairs, IfOk, IfSome, IfNone, OnOk, IsTrue};
ghost use Rattle.plain_model.specs.Listed.{has_call};
ghost use Rattle.plain_model.specs.Orders.{end_within, ended_within as within, placeable};
ghost use Rattle.rss_model.specs.Candidate.{IsCandidate};
ghost use Rattle.rss_model.specs.History.{has_ended as was_ended};
ghost use Rattle.history_index.specs.Kept.{Indexes};
ghost use Rattle.rss_check.specs.Places.{kept, ArePlaces};

use crate::calls::is_mutation;
use history_index::HistoryIndex;
use indexmap::IndexMap;
use rss_model::Entry;
use rss_names::CallId;
use std::alloc::{AllocError, Global};

/// The place of each call in an order, from 1.
pub type Places = IndexMap<u32, usize>;

/// The place of a call, 0 where it has none.
pub fn place_of(places: &Places, call: CallId) -> usize
    ensures { result ≡ kept places.now call }
{
    match places.get(&call.number()) {
        Some(place) => *place,
        None => 0,
    }
}

/// Keeps the place of a call.
fn put_place(places: &mut Places, call: CallId, place: usize) -> Result<(), AllocError>
    ensures { OnOk result ((other : ℕ) → kept places.new other ≡ cond (nat_eq call other) place (kept places.old other)) }
{
    match places.insert(call.number(), place) {
        Ok(_) => Ok(()),
        Err(_) => Err(AllocError),
    }
}

/// The places of the calls of an order. None where a call stands in it twice.
#[tactic(auto, using(crate::proofs::Placed::none_placed, crate::proofs::Placed::place_more, crate::proofs::Placed::place_twice, crate::proofs::Placed::all_placed, plain_model::proofs::LegalTurns::stands_at))]
pub fn place_all(alloc: Global, c: &[CallId]) -> Result<Option<Places>, AllocError>
    ensures placed { IfOk result (λ r. IfSome r (λ places. ArePlaces c.now (kept places))) }
    ensures twice { IfOk result (λ r. IfNone r (AllPairs (λ a b. a ≢ b) c.now → ⊥)) }
{
    let mut places: Places = IndexMap::new(alloc);
    for (index, call) in c.iter().enumerate() {
        if place_of(&places, *call) > 0 {
            return Ok(None);
        }
        put_place(&mut places, *call, index + 1)?;
    }
    Ok(Some(places))
}

/// Whether the call that an entry ends, if it ends one, has a place.
fn is_end_within(c: &[CallId], places: &Places, entry: &Entry) -> bool
    requires { ArePlaces c.now (kept places.now) }
    ensures { result ≡ end_within c.now entry.now }
{
    match entry {
        Entry::End(call, _) => place_of(places, *call) > 0,
        Entry::Begin(_, _, _) => true,
        Entry::Give(_, _) => true,
        Entry::Get(_, _) => true,
        Entry::Over(_, _) => true,
    }
}

/// Whether all ended calls have places.
fn are_ended_within(h: &[Entry], c: &[CallId], places: &Places) -> bool
    requires { ArePlaces c.now (kept places.now) }
    ensures { result ≡ within c.now h.now }
{
    for entry in h {
        if !is_end_within(c, places, entry) {
            return false;
        }
    }
    true
}

/// Whether a call has ended.
fn has_ended(h: &[Entry], index: &HistoryIndex, call: CallId) -> bool
    requires { Indexes h.now index.now }
    ensures { result ≡ was_ended h.now call }
{
    match index.begun(call) {
        Some(begun) => begun.end.is_some(),
        None => false,
    }
}

/// Whether each call of an order has ended or is a mutation.
fn are_placeable(h: &[Entry], index: &HistoryIndex, c: &[CallId]) -> bool
    requires { Indexes h.now index.now }
    ensures { result ≡ placeable h.now c.now }
{
    for call in c {
        if !has_ended(h, index, *call) && !is_mutation(h, index, *call) {
            return false;
        }
    }
    true
}

/// Whether an order whose calls have these places is a candidate: it has all ended calls, and else
/// only mutations.
pub fn is_candidate(h: &[Entry], index: &HistoryIndex, c: &[CallId], places: &Places) -> bool
    requires indexed { Indexes h.now index.now }
    requires placed { ArePlaces c.now (kept places.now) }
    ensures { IsTrue result ↔ IsCandidate h.now c.now }
{
    are_ended_within(h, c, places) && are_placeable(h, index, c)
}
