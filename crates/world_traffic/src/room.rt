//! Room for one step of each kind. A step itself takes no memory.

ghost use Rattle.std.specs.Prelude.{◌≡◌, ◌<◌, ◌≤◌, OnOk, IfOk, None, Some, IsSome};
ghost use Rattle.owner_turns.specs.Going.{HomesFit};
ghost use Rattle.rss_wire.specs.Messages.{request_at, reply_at};
ghost use Rattle.world_parts.specs.Parts.{owner_in};
ghost use Rattle.world_traffic.specs.Turned.{said_in};
ghost use Rattle.world_traffic.specs.View.{HasTurnRoom, IsQuiet, IsBegun};

use crate::traffic::Traffic;
use owner_turns::Moment;
use pipeline_lang::Config;
use rss_wire::Request;
use std::alloc::{AllocError, Global};
use truetime::Interval;

/// The most messages that one turn sends: two to each of sixteen shards.
pub(crate) const MOST_SENT: usize = 32;

impl Traffic {
    /// Makes room for the answer to a request. An `Err` is want of memory.
    pub fn make_room_to_answer(&mut self) -> Result<(), AllocError>
        ensures room { OnOk result (0 < self.new.messages) }
        ensures others { self.new ≡ record self.old { messages = self.new.messages } }
    {
        self.mail.make_room(1)
    }

    /// Makes room for a turn of an owner by itself, in a step with this reading. An `Err` is want of
    /// memory.
    #[tactic(auto, using(crate::proofs::Rows::rows, crate::proofs::Rows::same_rows))]
    pub fn make_room_to_act(
        &mut self,
        config: &Config,
        number: u32,
        step: u32,
        at: Interval,
    ) -> Result<(), AllocError>
        requires begun { IsBegun self.old.traffic number }
        requires homes { HomesFit config.now (owner_in self.old.traffic number).kind }
        requires quiet { IsQuiet self.old }
        ensures room { OnOk result (HasTurnRoom config.now at self.new number None) }
        ensures same { self.new.traffic ≡ self.old.traffic }
        ensures quiet { IsQuiet self.new }
    {
        self.mail.make_room(MOST_SENT)?;
        let now = Moment {
            config,
            number,
            step,
        };
        let owner = &mut self.owners[(number - 1) as usize];
        owner.make_room(None, &now, at, &mut self.spare, &mut self.outbox)
    }

    /// Makes room for a turn in which an owner hears what a message says. An `Err` is want of memory.
    #[tactic(auto, using(crate::proofs::Rows::rows, crate::proofs::Rows::same_rows, crate::proofs::Again::said_so))]
    pub fn make_room_to_hear(
        &mut self,
        config: &Config,
        number: u32,
        step: u32,
        at: Interval,
        message: u32,
    ) -> Result<(), AllocError>
        requires begun { IsBegun self.old.traffic number }
        requires homes { HomesFit config.now (owner_in self.old.traffic number).kind }
        requires reply { IsSome (reply_at self.old.traffic.net message) }
        requires quiet { IsQuiet self.old }
        ensures room { OnOk result (HasTurnRoom config.now at self.new number (Some (said_in self.old.traffic.net message))) }
        ensures same { self.new.traffic ≡ self.old.traffic }
        ensures quiet { IsQuiet self.new }
    {
        self.mail.make_room(MOST_SENT)?;
        let now = Moment {
            config,
            number,
            step,
        };
        let reply = self.mail.reply(message);
        let owner = &mut self.owners[(number - 1) as usize];
        owner.make_room(reply, &now, at, &mut self.spare, &mut self.outbox)
    }

    /// Makes room for the loss of a message: for a message, and a copy of the request of its exchange. An
    /// `Err` is want of memory.
    pub fn make_room_to_lose(&mut self, alloc: Global, exchange: u32) -> Result<(), AllocError>
        ensures message { OnOk result (0 < self.new.messages) }
        ensures again { OnOk result (self.new.again ≡ request_at self.new.traffic.net exchange) }
        ensures others { self.new ≡ record self.old { messages = self.new.messages; again = self.new.again } }
    {
        let copy = self.copy(alloc, exchange)?;
        self.again = copy;
        self.mail.make_room(1)
    }

    // A copy of a request.
    fn copy(&self, alloc: Global, number: u32) -> Result<Option<Request>, AllocError>
        ensures { IfOk result (λ copy. copy ≡ request_at self.now.traffic.net number) }
    {
        match self.mail.request(number) {
            None => Ok(None),
            Some(request) => Ok(Some(request.try_clone(alloc)?)),
        }
    }
}
