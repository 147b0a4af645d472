//! The outbox: what a session sends in one step.

ghost use Rattle.std.specs.Prelude.{◌≡◌, ◌+◌, ◌<◌, ◌≤◌, ◌==◌, [], ◌∷◌, ◌++◌, length, OnOk, OnSome, IfNone};
ghost use Rattle.std.specs.Option.{option_to_list};

use crate::messages::Request;
use rss_names::Target;
use std::alloc::{AllocError, Global};
use std::collections::VecDeque;
use std::marker::Model;

/// The requests that a session sends in one step, in order, each with its target. Contracts see the
/// list of the requests, and for how many more there is room.
pub struct Outbox {
    queue: VecDeque<(Target, Request)>,
}

// Written out, so that who lets an outbox go sees one call and none of its parts.
impl Drop for Outbox {
    fn drop(self) {
        let Outbox { queue: _queue } = self;
    }
}

impl Model for Outbox {
    ghost use Rattle.std.specs.Prelude.{◌-◌};
    ghost use Rattle.std.specs.VecDeque.{deque_len, deque_capacity};
    ghost use Rattle.rss_wire.specs.Outbox.{OutboxView};

    ghost Value = { OutboxView };

    ghost view = { λ o. record { requests = o.queue.items; room = deque_capacity o.queue - deque_len o.queue } };
}

impl Outbox {
    /// An empty outbox.
    pub fn new(alloc: Global) -> Outbox
        ensures { result.requests ≡ [] }
    {
        Outbox {
            queue: VecDeque::new(alloc),
        }
    }

    pub fn len(&self) -> usize
        ensures { result ≡ length self.now.requests }
    {
        self.queue.len()
    }

    pub fn is_empty(&self) -> bool
        ensures { result ≡ (length self.now.requests == 0) }
    {
        self.queue.is_empty()
    }

    /// Makes room for at least `n` more requests.
    pub fn make_room(&mut self, n: usize) -> Result<(), AllocError>
        ensures same { self.new.requests ≡ self.old.requests }
        ensures room { OnOk result (n ≤ self.new.room) }
        ensures room_stays { self.old.room ≤ self.new.room }
    {
        self.queue.reserve(n)
    }

    /// Appends a request. Takes no memory.
    pub fn push(&mut self, target: Target, request: Request)
        requires room { 0 < self.old.room }
        ensures appends { self.new.requests ≡ self.old.requests ++ (target, request) ∷ [] }
        ensures room { self.new.room + 1 ≡ self.old.room }
    {
        self.queue.push_back_reserved((target, request));
    }

    /// Takes the first request out, if there is one.
    pub fn pop(&mut self) -> Option<(Target, Request)>
        ensures first { self.old.requests ≡ option_to_list result ++ self.new.requests }
        ensures room { OnSome result (self.new.room ≡ self.old.room + 1) }
        ensures empty { IfNone result (self.old.requests ≡ []) }
        ensures unchanged { IfNone result (self.new ≡ self.old) }
    {
        self.queue.pop_front()
    }
}
