//! The checker.

ghost use Rattle.std.specs.Prelude.{◌≡◌, true, IfOk, IfSome, IfNone};
ghost use Rattle.pipeline_lang.specs.declared.config.Config.{Config};
ghost use Rattle.rss_model.specs.Regular.{Regular};
ghost use Rattle.history_index.specs.Following.{is_well_formed};
ghost use Rattle.rss_check.specs.Verdicts.{IsVerdict};

use crate::causal::least_uncaused;
use crate::legal::first_unmet;
use crate::places::{is_candidate, place_all};
use crate::scripts::first_stray;
use crate::timely::least_untimely;
use crate::verdict::Verdict;
use history_index::index_history;
use pipeline_lang::Config;
use rss_model::{Candidate, Entry, History};
use rss_names::CallId;
use std::alloc::{AllocError, Global};

/// What is wrong with an order of the calls of a history. None where it is regular.
fn order_verdict(alloc: Global, h: &[Entry], c: &[CallId]) -> Result<Option<Verdict>, AllocError>
    requires { is_well_formed h.now ≡ true }
    ensures wrong { IfOk result (λ r. IfSome r (λ verdict. (config : Config) → IsVerdict config h.now c.now verdict)) }
    ensures regular { IfOk result (λ r. IfNone r (Regular h.now c.now)) }
{
    let index = index_history(alloc, h)?;
    let Some(places) = place_all(alloc, c)? else {
        return Ok(Some(Verdict::NotCandidate));
    };
    if !is_candidate(h, &index, c, &places) {
        return Ok(Some(Verdict::NotCandidate));
    }
    if let Some(call) = first_unmet(alloc, h, &index, c)? {
        return Ok(Some(Verdict::NotLegal(call)));
    }
    if let Some(call) = least_uncaused(alloc, h, &index, &places)? {
        return Ok(Some(Verdict::NotCausal(call)));
    }
    match least_untimely(alloc, h, &index, &places)? {
        Some(call) => Ok(Some(Verdict::NotTimely(call))),
        None => Ok(None),
    }
}

/// Whether an order of the calls of a history is regular, and each stage of the file runs its
/// script; or the first thing that is wrong. In the history each entry may stand behind those above
/// it.
///
/// Order and legality take one pass each, and no closure of causality is built. Scripts are judged
/// stage by stage by a slow and plain function.
pub fn check(
    alloc: Global,
    config: &Config,
    h: &History,
    c: &Candidate,
) -> Result<Verdict, AllocError>
    requires { is_well_formed h.now ≡ true }
    ensures { IfOk result (λ verdict. IsVerdict config.now h.now c.now verdict) }
{
    if let Some(verdict) = order_verdict(alloc, h.as_slice(), c.as_slice())? {
        return Ok(verdict);
    }
    match first_stray(alloc, config, h)? {
        Some(stage) => Ok(Verdict::NotScript(stage)),
        None => Ok(Verdict::Yes),
    }
}
