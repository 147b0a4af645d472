//! Table: the messages between clients and the shards and replicas that serve them.
#![tactic(auto)]

mod clones;
mod envelope;
mod message;
mod messages;
mod net;
mod ordinals;
mod outbox;
mod refusal;

pub use envelope::Envelope;
pub use message::{Body, Fate, Message};
pub use messages::{Holder, Outcome, Progress, RegReply, Reply, Request, Skipped, Version};
pub use net::Net;
pub use outbox::Outbox;
pub use refusal::NetRefusal;
