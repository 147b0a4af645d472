//! Whether an order of calls is regular.

ghost use Rattle.std.specs.Prelude.{◌≡◌, ◌↔◌, IsTrue, IfOk};
ghost use Rattle.plain_model.specs.Orders.{must_precede as precedes, none_precedes as none_before, keeps_order as is_kept};
ghost use Rattle.rss_model.specs.Regular.{Regular};

use crate::candidacy::is_candidate;
use crate::causality::{causes, has_pair};
use crate::legality::is_legal;
use crate::realtime::follows;
use rss_model::{Candidate, Entry, History};
use rss_names::CallId;
use std::alloc::{AllocError, Global};

/// Whether an order holds all ended calls and otherwise only mutations, each once, is legal, keeps
/// potential causality, and puts each ended mutation before every mutation and conflicting read that
/// began later.
pub fn regular(alloc: Global, h: &History, c: &Candidate) -> Result<bool, AllocError>
    ensures { IfOk result (λ regular. IsTrue regular ↔ Regular h.now c.now) }
{
    is_regular(alloc, h.as_slice(), c.as_slice())
}

// Whether an order of calls is regular.
fn is_regular(alloc: Global, h: &[Entry], c: &[CallId]) -> Result<bool, AllocError>
    ensures { IfOk result (λ regular. IsTrue regular ↔ Regular h.now c.now) }
{
    if !is_candidate(h, c) || !is_legal(alloc, h, c)? {
        return Ok(false);
    }
    let causality = causes(alloc, h)?;
    Ok(keeps_order(h, &causality, c))
}

// Whether no call stands in the order behind one that it must precede.
#[tactic(auto, using(crate::proofs::Lists::rest_of))]
fn keeps_order(h: &[Entry], causality: &[(CallId, CallId)], c: &[CallId]) -> bool
    ensures { result ≡ is_kept h.now causality.now c.now }
{
    for (place, call) in c.iter().enumerate() {
        if !none_precedes(h, causality, *call, &c[place..]) {
            return false;
        }
    }
    true
}

// Whether none of these calls must stand before b.
fn none_precedes(h: &[Entry], causality: &[(CallId, CallId)], b: CallId, calls: &[CallId]) -> bool
    ensures { result ≡ none_before h.now causality.now b calls.now }
{
    for a in calls {
        if must_precede(h, causality, *a, b) {
            return false;
        }
    }
    true
}

// Whether a must stand before b: it is potentially causal, or for its place in real time.
fn must_precede(h: &[Entry], causality: &[(CallId, CallId)], a: CallId, b: CallId) -> bool
    ensures { result ≡ precedes h.now causality.now a b }
{
    has_pair(causality, a, b) || follows(h, a, b)
}
