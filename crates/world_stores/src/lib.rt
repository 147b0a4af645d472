//! Code: the shards and the replicas together, and what serving a request makes of them.
#![tactic(auto)]

mod laws;
mod stores;

pub use laws::{requests_are_answered, requests_come_to_stores};
pub use stores::Stores;
