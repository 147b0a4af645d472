//! A message of the net: what it says, and what became of it.

use crate::envelope::Envelope;
use crate::messages::{Reply, Request};

/// What a message says.
pub enum Body {
    Request(Request),
    Reply(Reply),
}

// Written out, so that who lets it go sees one call and none of its parts.
impl Drop for Body {
    fn drop(self) {
        match self {
            Body::Request(_request) => {}
            Body::Reply(_reply) => {}
        }
    }
}

/// What became of a message.
#[derive(Clone, Copy, PartialEq, Eq)]
pub enum Fate {
    /// Neither delivered nor lost.
    Pending,
    /// Delivered once.
    Delivered,
    /// Delivered twice.
    Repeated,
    Lost,
}

/// A message that was sent.
pub struct Message {
    pub envelope: Envelope,
    pub body: Body,
    pub fate: Fate,
}

// Written out, so that who lets a message go sees one call and none of its parts.
impl Drop for Message {
    fn drop(self) {
        let Message {
            envelope: _envelope,
            body: _body,
            fate: _fate,
        } = self;
    }
}
