//! The decisions that a coordinator keeps, and the attempts that gave their locks back.

ghost use Rattle.std.specs.Prelude.{◌≡◌, ◌<◌};
ghost use Rattle.indexmap.specs.IndexMap.{spare};
ghost use Rattle.indexmap.specs.IndexSet.{spare as set_spare};
ghost use Rattle.rss_tables.specs.Attempts.{has_attempt, with_attempt};
ghost use Rattle.rss_tables.specs.ShardRow.{decision_in};
ghost use Rattle.txn_shard.specs.Parts.{with_decision};

use indexmap::{IndexMap, IndexSet};
use rss_names::Attempt;
use rss_wire::Outcome;

/// The decision kept for an attempt.
#[tactic(auto, using(crate::proofs::Decided::decided))]
pub fn decision_of(decisions: &IndexMap<Attempt, Outcome>, attempt: Attempt) -> Option<Outcome>
    ensures { result ≡ decision_in decisions.now.entries attempt }
{
    decisions.get(&attempt).copied()
}

/// Keeps the first decision of an attempt, and no later one. There is room for it.
#[tactic(auto, using(crate::proofs::Decided::decided))]
pub fn keep(decisions: &mut IndexMap<Attempt, Outcome>, attempt: Attempt, outcome: Outcome)
    requires room { 0 < spare decisions.old }
    ensures { decisions.new.entries ≡ with_decision decisions.old.entries attempt outcome }
{
    if let Some(_kept) = decision_of(decisions, attempt) {
        return;
    }
    decisions.insert(attempt, outcome).unwrap();
}

/// Whether an attempt gave its locks back.
pub fn was_released(released: &IndexSet<Attempt>, attempt: Attempt) -> bool
    ensures { result ≡ has_attempt released.now.keys attempt }
{
    released.contains(&attempt)
}

/// Notes that an attempt gave its locks back. There is room for it.
pub fn note_released(released: &mut IndexSet<Attempt>, attempt: Attempt)
    requires room { 0 < set_spare released.old }
    ensures { released.new.keys ≡ with_attempt released.old.keys attempt }
{
    released.insert(attempt).unwrap();
}
