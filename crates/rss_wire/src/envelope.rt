//! What the net knows of a message besides its contents.

use rss_names::{StageId, Target};

/// The outside of a message.
#[derive(Clone, Copy)]
pub struct Envelope {
    /// Messages are numbered from 1 in the order sent.
    pub number: u32,
    /// The call, fence statement or stub that the message serves.
    pub owner: u32,
    pub stage: StageId,
    /// A request's own number, or for a reply that of its request.
    pub exchange: u32,
    pub target: Target,
    /// A request counts, from 1, the requests of its stage to its target. A reply has its request's.
    pub ordinal: u32,
    /// Whether this is a request.
    pub request: bool,
}
