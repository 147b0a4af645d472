//! Code: what an owner of messages has under way, and the one outbox that all its sessions write into.
#![tactic(auto)]

mod called;
mod doing;
mod outbox;
mod rounds;

pub use called::{Called, snap, txn};
pub use doing::Doing;
pub use outbox::Outbox;
pub use rounds::{cut_round, hear_round};
