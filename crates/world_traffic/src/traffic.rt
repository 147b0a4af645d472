//! The part itself, and what is read of it.

ghost use Rattle.std.specs.Prelude.{◌≡◌, ◌+◌, ◌<◌, ◌≤◌, ◌∷◌, [], length, replicate, Some, None, IfSome, IfNone};
ghost use Rattle.rss_machine.specs.State.{no_owner};
ghost use Rattle.rss_machine.specs.Turns.{due_message};
ghost use Rattle.rss_wire.specs.Messages.{no_messages, envelope_at, request_at, reply_at, pending_count};
ghost use Rattle.rss_wire.specs.Net.{deliver_refusal, lose_refusal, again_refusal};
ghost use Rattle.std.specs.Option.{option_copied};
ghost use Rattle.world_parts.specs.Parts.{owner_in};
ghost use Rattle.world_traffic.specs.View.{IsBegun, IsQuiet};

use owner_sessions::Outbox;
use owner_turns::{Owner, Spare};
use rss_names::StageId;
use rss_wire::{Envelope, NetRefusal, Reply, Request};
use stage_mail::Mail;
use std::alloc::Global;
use std::marker::Model;

/// All owners, the net, and how many fences were planned of each service. Contracts see the tables'
/// part of these, and what there is room for.
pub struct Traffic {
    /// Owner number n stands at place n - 1.
    pub(crate) owners: Vec<Owner>,
    pub(crate) mail: Mail,
    /// The requests of the step under way.
    pub(crate) outbox: Outbox,
    /// How many fences were planned of each service, by its place.
    pub(crate) planned: [u32; 16],
    /// The owner that begins next.
    pub(crate) next: Option<Owner>,
    /// What is made ready for the turn of the step under way.
    pub(crate) spare: Spare,
    /// A copy of the request that the step under way may send again.
    pub(crate) again: Option<Request>,
}

// Written out, so that who lets it go sees one call and none of its parts.
impl Drop for Traffic {
    fn drop(self) {
        let Traffic {
            owners: _owners,
            mail: _mail,
            outbox: _outbox,
            planned: _planned,
            next: _next,
            spare: _spare,
            again: _again,
        } = self;
    }
}

impl Model for Traffic {
    ghost use Rattle.std.specs.Prelude.{◌-◌, vec_len, vec_capacity};
    ghost use Rattle.world_traffic.specs.View.{TrafficView, rows_of};

    ghost Value = { TrafficView };

    ghost view = { λ t. record {
      traffic = record { owners = rows_of t.owners.items; net = t.mail.messages; planned = t.planned };
      each = t.owners.items;
      messages = t.mail.room;
      free = vec_capacity t.owners - vec_len t.owners;
      next = t.next;
      outbox = t.outbox;
      spare = t.spare;
      again = t.again;
    } };
}

impl Traffic {
    /// No owner, no message, and no fence planned.
    pub fn new(alloc: Global) -> Traffic
        ensures traffic { result.traffic ≡ record { owners = no_owner ∷ []; net = no_messages; planned = replicate 16 0 } }
        ensures quiet { IsQuiet result }
    {
        Traffic {
            owners: Vec::new(alloc),
            mail: Mail::new(alloc),
            outbox: Outbox::new(alloc),
            planned: [0; 16],
            next: None,
            spare: Spare::new(alloc),
            again: None,
        }
    }

    /// How many owners were begun; the next one has the number after that.
    pub fn begun(&self) -> usize
        ensures { result + 1 ≡ length self.now.traffic.owners }
    {
        self.owners.len()
    }

    /// The owner of a number. `None` exactly where none of this number was begun.
    #[tactic(auto, using(crate::proofs::Rows::founds))]
    pub fn owner(&self, number: u32) -> Option<&Owner>
        ensures found { IfSome result (λ found. found.now.row ≡ owner_in self.now.traffic number) }
        ensures missing { IfNone result (owner_in self.now.traffic number ≡ no_owner) }
        ensures within { IfSome result (λ _. IsBegun self.now.traffic number) }
    {
        match number.checked_sub(1) {
            Some(place) => self.owners.get(place as usize),
            None => None,
        }
    }

    /// How many fences were planned of each service, by its place in the order of services.
    pub fn planned(&self) -> [u32; 16]
        ensures { result ≡ self.now.traffic.planned }
    {
        self.planned
    }

    /// How many messages are neither delivered nor lost.
    pub fn pending(&self) -> usize
        ensures { result ≡ pending_count self.now.traffic.net }
    {
        self.mail.pending()
    }

    /// The outside of the least-numbered message of a stage that is still to come. `None` exactly where
    /// there is none.
    pub fn due(&self, stage: StageId) -> Option<Envelope>
        ensures { result ≡ due_message stage self.now.traffic.net }
    {
        self.mail.due(stage)
    }

    /// The outside of a message. `None` exactly where none of this number was sent.
    pub fn envelope(&self, number: u32) -> Option<Envelope>
        ensures { result ≡ envelope_at self.now.traffic.net number }
    {
        self.mail.envelope(number).copied()
    }

    /// A request's contents. `None` exactly where no request of this number was sent.
    pub fn request(&self, number: u32) -> Option<&Request>
        ensures { option_copied result ≡ request_at self.now.traffic.net number }
    {
        self.mail.request(number)
    }

    /// A reply's contents. `None` exactly where no reply of this number was sent.
    pub fn reply(&self, number: u32) -> Option<&Reply>
        ensures { option_copied result ≡ reply_at self.now.traffic.net number }
    {
        self.mail.reply(number)
    }

    /// Why `deliver` would refuse this number, if it would.
    pub fn deliver_refusal(&self, number: u32) -> Option<NetRefusal>
        ensures { result ≡ deliver_refusal self.now.traffic.net number }
    {
        self.mail.deliver_refusal(number)
    }

    /// Why `lose` would refuse this number, if it would.
    pub fn lose_refusal(&self, number: u32) -> Option<NetRefusal>
        ensures { result ≡ lose_refusal self.now.traffic.net number }
    {
        self.mail.lose_refusal(number)
    }

    /// Why `repeat` would refuse this number, if it would.
    pub fn again_refusal(&self, number: u32) -> Option<NetRefusal>
        ensures { result ≡ again_refusal self.now.traffic.net number }
    {
        self.mail.again_refusal(number)
    }
}
