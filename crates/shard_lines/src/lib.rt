//! Code: the lines of a transaction or a snapshot, one for each shard of its keys, in four vectors a
//! call.
#![tactic(auto)]

mod each;
mod flat;
mod lines;
mod opening;

pub use lines::Lines;
