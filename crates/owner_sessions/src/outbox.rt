//! The outbox of an owner: what its sessions send in one step, and the fences that it plans.

ghost use Rattle.std.specs.Prelude.{◌≡◌, ◌+◌, ◌-◌, ◌<◌, ◌≤◌, [], ◌++◌, length, OnOk, IfNone};
ghost use Rattle.std.specs.Option.{option_to_list};
ghost use Rattle.rss_tables.specs.Outs.{target_slot};
ghost use Rattle.owner_sessions.specs.Boxed.{outs_of, HasBoxRoom, HasStubRoom, IsEmptyBox};

use gryff_quorum::DepLists;
use rss_names::{ServiceId, Target};
use rss_tables::FenceWork;
use session_outbox::Sending;
use std::alloc::{AllocError, Global};

/// The greatest number of replicas of a service, so of requests that a round sends.
const MOST_REPLICAS: usize = 7;

/// How many services there can be.
const SERVICES: usize = 16;

/// The most requests that lines send in one step with what a stub tells its shards, and the spare lists of keys and of writes that they
/// take.
const MOST_REQUESTS: usize = 48;

const MOST_KEY_LISTS: usize = 34;

const MOST_WRITE_LISTS: usize = 17;

/// What the sessions of an owner send in one step, the fences that it plans, and spare lists, so that
/// all of it is made without memory. What rounds send comes behind what lines send.
pub struct Outbox {
    pub lines: session_outbox::Outbox,
    pub rounds: rss_wire::Outbox,
    /// Spare lists of dependencies for the requests of rounds.
    pub lists: DepLists,
    pub fences: Vec<(ServiceId, FenceWork)>,
}

// Written out, so that who lets an outbox go sees one call and none of its parts.
impl Drop for Outbox {
    fn drop(self) {
        let Outbox {
            lines: _lines,
            rounds: _rounds,
            lists: _lists,
            fences: _fences,
        } = self;
    }
}

impl Outbox {
    /// An empty outbox. Takes no memory.
    pub fn new(alloc: Global) -> Outbox
        ensures { IsEmptyBox result }
    {
        Outbox {
            lines: session_outbox::Outbox::new(alloc),
            rounds: rss_wire::Outbox::new(alloc),
            lists: DepLists::new(alloc),
            fences: Vec::new(alloc),
        }
    }

    /// Makes room for all that an owner can send and plan in one step, where its context has this many
    /// dependencies. An `Err` is want of memory: no request and no fence is lost.
    pub fn make_room(&mut self, deps: usize) -> Result<(), AllocError>
        ensures lines { self.new.lines.outs ≡ self.old.lines.outs }
        ensures rounds { self.new.rounds.requests ≡ self.old.rounds.requests }
        ensures fences { self.new.fences.items ≡ self.old.fences.items }
        ensures room { OnOk result (HasBoxRoom self.new deps) }
        ensures stub { OnOk result (HasStubRoom self.new) }
    {
        self.lines
            .make_room(MOST_REQUESTS, MOST_KEY_LISTS, MOST_WRITE_LISTS)?;
        self.rounds.make_room(MOST_REPLICAS)?;
        self.lists.make_room(MOST_REPLICAS, deps)?;
        self.fences.reserve(SERVICES)
    }

    /// Lets the fences planned go, and keeps their room.
    pub fn clear_fences(&mut self)
        ensures fences { self.new.fences.items ≡ [] }
        ensures others { self.new ≡ record self.old { fences = self.new.fences } }
    {
        self.fences.clear();
    }

    /// Takes the first request out, if there is one.
    pub fn pop(&mut self) -> Option<Sending>
        ensures first { outs_of self.old ≡ option_to_list result ++ outs_of self.new }
        ensures empty { IfNone result (outs_of self.old ≡ []) }
        ensures fences { self.new.fences ≡ self.old.fences }
    {
        match self.lines.pop() {
            Some(sending) => Some(sending),
            None => self.pop_round(),
        }
    }

    // Takes the first request of rounds out, where lines send nothing.
    #[tactic(auto, using(crate::proofs::Rounding::pops))]
    fn pop_round(&mut self) -> Option<Sending>
        requires { self.old.lines.outs ≡ [] }
        ensures first { outs_of self.old ≡ option_to_list result ++ outs_of self.new }
        ensures empty { IfNone result (outs_of self.old ≡ []) }
        ensures fences { self.new.fences ≡ self.old.fences }
    {
        match self.rounds.pop() {
            Some((target, request)) => {
                let slot = slot_of(&target);
                Some(Sending::new(Some(slot), target, request))
            }
            None => None,
        }
    }
}

// The slot of a target.
fn slot_of(target: &Target) -> u8
    ensures { result ≡ target_slot target.now }
{
    match target {
        Target::Shard(shard) => shard.number() + 6,
        Target::Replica(_, replica) => replica.number() - 1,
    }
}
