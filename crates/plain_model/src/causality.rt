//! The pairs of potential causality.

ghost use Rattle.std.specs.Prelude.{◌≡◌, ◌≤◌, ◌++◌, [], length, IfOk, OnOk};
ghost use Rattle.plain_model.specs.Listed.{calls_below, stands_at as is_at, with_call, has_pair as is_pair_listed, picked, picked_row};
ghost use Rattle.plain_model.specs.Messages.{behind as behind_places, generates as is_generated};
ghost use Rattle.plain_model.specs.Causes.{with_writers, with_named, with_all_named, reaches as is_reached, closed_over as closed, causes as all_causes, IsCausality};

use crate::messages::{behind, generates};
use rss_model::{Entry, History, Shown};
use rss_names::CallId;
use std::alloc::{AllocError, Global};

/// The pairs of calls of which the first is potentially causally before the second: each pair once,
/// in ascending order.
pub fn causal(alloc: Global, h: &History) -> Result<Vec<(CallId, CallId)>, AllocError>
    ensures { IfOk result (λ pairs. IsCausality h.now pairs.items) }
{
    causes(alloc, h.as_slice())
}

/// The pairs of potential causality of a history.
pub(crate) fn causes(alloc: Global, h: &[Entry]) -> Result<Vec<(CallId, CallId)>, AllocError>
    ensures { IfOk result (λ pairs. pairs.items ≡ all_causes h.now (with_all_named [] h.now)) }
{
    let calls = named_calls(alloc, h)?;
    let generated = generated_pairs(alloc, h, &calls)?;
    closed_over(alloc, generated, &calls)
}

// The known pairs, and those that follow from them by way of these calls.
fn closed_over(
    alloc: Global,
    mut known: Vec<(CallId, CallId)>,
    calls: &[CallId],
) -> Result<Vec<(CallId, CallId)>, AllocError>
    ensures { IfOk result (λ pairs. pairs.items ≡ closed calls.now known.items calls.now) }
{
    for way in calls {
        known = pairs_over(alloc, &known, *way, calls)?;
    }
    Ok(known)
}

/// Whether a pair is in a list.
pub(crate) fn has_pair(pairs: &[(CallId, CallId)], a: CallId, b: CallId) -> bool
    ensures { result ≡ is_pair_listed pairs.now a b }
{
    for pair in pairs {
        if pair.0 == a && pair.1 == b {
            return true;
        }
    }
    false
}

// The calls that a history names, ascending.
fn named_calls(alloc: Global, h: &[Entry]) -> Result<Vec<CallId>, AllocError>
    ensures { IfOk result (λ calls. calls.items ≡ with_all_named [] h.now) }
{
    let mut calls = Vec::new(alloc);
    for entry in h {
        add_named(&mut calls, entry)?;
    }
    Ok(calls)
}

// Adds the calls that an entry names.
fn add_named(calls: &mut Vec<CallId>, entry: &Entry) -> Result<(), AllocError>
    ensures { OnOk result (calls.new.items ≡ with_named calls.old.items entry.now) }
{
    match entry {
        Entry::Begin(call, _, _) => add_call(calls, *call),
        Entry::End(call, reply) => {
            add_call(calls, *call)?;
            add_writers(calls, reply.as_slice())
        }
        Entry::Give(_, _) | Entry::Get(_, _) | Entry::Over(_, _) => Ok(()),
    }
}

// Adds the writers that a reply names.
fn add_writers(calls: &mut Vec<CallId>, reply: &[Shown]) -> Result<(), AllocError>
    ensures { OnOk result (calls.new.items ≡ with_writers calls.old.items reply.now) }
{
    for shown in reply {
        if let Some(writer) = CallId::new(shown.writer) {
            add_call(calls, writer)?;
        }
    }
    Ok(())
}

// Adds a call at its place in an ascending list, unless the list has it.
#[tactic(auto, using(crate::proofs::Ascending::placed))]
fn add_call(calls: &mut Vec<CallId>, call: CallId) -> Result<(), AllocError>
    ensures { OnOk result (calls.new.items ≡ with_call calls.old.items call) }
{
    let place = place_of(calls, call);
    if stands_at(calls, place, call) {
        return Ok(());
    }
    calls.insert(place, call)?;
    Ok(())
}

// Whether a call stands at a place of a list.
fn stands_at(calls: &[CallId], place: usize, call: CallId) -> bool
    ensures { result ≡ is_at calls.now place call }
{
    place < calls.len() && calls[place] == call
}

// How many calls stand above the first one that is not smaller.
fn place_of(calls: &[CallId], call: CallId) -> usize
    ensures same { result ≡ calls_below calls.now call }
    ensures within { result ≤ length calls.now }
{
    for (place, listed) in calls.iter().enumerate() {
        if call.number() <= listed.number() {
            return place;
        }
    }
    calls.len()
}

// The pairs of these calls that generate potential causality.
fn generated_pairs(
    alloc: Global,
    h: &[Entry],
    calls: &[CallId],
) -> Result<Vec<(CallId, CallId)>, AllocError>
    ensures { IfOk result (λ pairs. pairs.items ≡ picked (is_generated h.now) calls.now calls.now) }
{
    let mut pairs = Vec::new(alloc);
    for a in calls {
        let marks = behind(alloc, h, *a)?;
        add_generated(&mut pairs, h, &marks, *a, calls)?;
    }
    Ok(pairs)
}

// Adds the generating pairs whose first call is this one, where these places are behind it.
fn add_generated(
    pairs: &mut Vec<(CallId, CallId)>,
    h: &[Entry],
    marks: &[bool],
    a: CallId,
    calls: &[CallId],
) -> Result<(), AllocError>
    requires behind { marks.now ≡ behind_places h.now a }
    requires sized { length marks.now ≤ length h.now }
    ensures { OnOk result (pairs.new.items ≡
        pairs.old.items ++ picked_row (is_generated h.now) a calls.now) }
{
    for b in calls {
        if generates(h, marks, a, *b) {
            pairs.push((a, *b))?;
        }
    }
    Ok(())
}

// The known pairs of these calls, and those that follow from two of them by way of one call.
fn pairs_over(
    alloc: Global,
    known: &[(CallId, CallId)],
    way: CallId,
    calls: &[CallId],
) -> Result<Vec<(CallId, CallId)>, AllocError>
    ensures { IfOk result (λ pairs.
        pairs.items ≡ picked (is_reached known.now way) calls.now calls.now) }
{
    let mut pairs = Vec::new(alloc);
    for a in calls {
        add_reached(&mut pairs, known, way, *a, calls)?;
    }
    Ok(pairs)
}

// Adds those of these pairs whose first call is this one.
fn add_reached(
    pairs: &mut Vec<(CallId, CallId)>,
    known: &[(CallId, CallId)],
    way: CallId,
    a: CallId,
    calls: &[CallId],
) -> Result<(), AllocError>
    ensures { OnOk result (pairs.new.items ≡
        pairs.old.items ++ picked_row (is_reached known.now way) a calls.now) }
{
    for b in calls {
        if reaches(known, way, a, *b) {
            pairs.push((a, *b))?;
        }
    }
    Ok(())
}

// Whether a pair is known, or follows from two known ones by way of one call.
fn reaches(known: &[(CallId, CallId)], way: CallId, a: CallId, b: CallId) -> bool
    ensures { result ≡ is_reached known.now way a b }
{
    has_pair(known, a, b) || has_pair(known, a, way) && has_pair(known, way, b)
}
