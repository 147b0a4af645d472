//! Code: what the sessions of transactions and snapshots share: the requests that one sends in a step,
//! with spare lists, so that they are made without memory, and how a line goes on that is in somebody's
//! way.
#![tactic(auto)]

mod lists;
mod outbox;
mod sending;
mod spare;
mod waiting;

pub use outbox::Outbox;
pub use sending::Sending;
pub use waiting::{block, decision_as, resolve, sleep, wake};
