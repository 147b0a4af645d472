//! Code: the shards of all transaction services.
#![tactic(auto)]

mod laws;
mod opening;
mod world;

pub use laws::{finds_the_commit, reads_as_the_machine, serves_as_the_machine};
pub use world::TxnWorld;
