//! Code: a machine that is kept by a log, and a shard as one.
#![tactic(auto)]

mod machine;
mod shards;

pub use machine::Machine;
