//! Theory: what the places of calls need of every run, so that the code finds a time without a search.
#![tactic(auto)]

ghost use Rattle.place_facts.specs.Facts.{RunsKeepPlaceFacts};

/// In every run the true moments of the steps never fall, and the commit time of a call is the decision that
/// its coordinator keeps for its present attempt.
#[tactic(auto, using(crate::proofs::Facts::facts_run))]
pub fn runs_keep_place_facts()
    ensures { RunsKeepPlaceFacts }
{}
