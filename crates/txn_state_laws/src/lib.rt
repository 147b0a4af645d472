//! Theory: what holds of transactions, snapshots and shards in every state of a run, stated. The
//! proofs that it holds stand in the crates above this one.
#![tactic(auto)]
