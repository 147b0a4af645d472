//! Theory: what a step does to transactions, snapshots and shards, as a list of events.
#![tactic(auto)]

mod laws;

pub use laws::steps_are_events;
