//! Code: one shard of a transaction service.
#![tactic(auto)]

mod applying;
mod decisions;
mod ending;
mod handling;
mod laws;
mod lists;
mod locking;
mod reading;
mod room;
mod shard;

pub use laws::{first_decision_stays, floor_never_falls, keys_stay};
pub use shard::Shard;
