//! What holds of every shard and every request.

ghost use Rattle.txn_shard.specs.Laws.{FirstDecisionStays, FloorNeverFalls, KeysStay};

/// The first decision that is kept for an attempt is never replaced.
#[tactic(auto, using(crate::proofs::ShardLaws::first_decision_stays))]
pub fn first_decision_stays()
    ensures { FirstDecisionStays }
{}

/// The time at which a shard was last read or written never falls.
#[tactic(auto, using(crate::proofs::ShardLaws::floor_never_falls))]
pub fn floor_never_falls()
    ensures { FloorNeverFalls }
{}

/// A shard keeps its keys.
#[tactic(auto, using(crate::proofs::ShardLaws::keys_stay))]
pub fn keys_stay()
    ensures { KeysStay }
{}
