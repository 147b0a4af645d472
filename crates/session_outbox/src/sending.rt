//! One request on its way to the net.

ghost use Rattle.std.specs.Prelude.{◌≡◌};

use rss_names::Target;
use rss_wire::Request;
use std::marker::Model;

/// A request, its target, and the slot in which its reply is awaited; without a slot no reply is.
/// Contracts see the tables' record.
#[derive(Drop)]
pub struct Sending {
    slot: Option<u8>,
    target: Target,
    request: Request,
}

impl Model for Sending {
    ghost use Rattle.rss_tables.specs.Outs.{Out};

    ghost Value = { Out };

    ghost view = { λ s. record { slot = s.slot; target = s.target; request = s.request } };
}

impl Sending {
    /// A request on its way.
    pub fn new(slot: Option<u8>, target: Target, request: Request) -> Sending
        ensures { result ≡ record { slot = slot; target = target; request = request } }
    {
        Sending {
            slot,
            target,
            request,
        }
    }

    /// The slot in which the reply is awaited.
    pub fn slot(&self) -> Option<u8>
        ensures { result ≡ self.now.slot }
    {
        self.slot
    }

    /// Where the request goes.
    pub fn target(&self) -> Target
        ensures { result ≡ self.now.target }
    {
        self.target
    }

    /// The request itself.
    pub fn into_request(self) -> Request
        ensures { result ≡ self.request }
    {
        let Sending {
            slot: _slot,
            target: _target,
            request,
        } = self;
        request
    }
}
