//! Code: the versions of a shard's keys.
#![tactic(auto)]

mod row;
mod versions;

pub use versions::Versions;
