//! What a session sends in one step, and spare lists for it.

ghost use Rattle.std.specs.Prelude.{◌≡◌, ◌+◌, ◌<◌, ◌≤◌, ◌==◌, [], ◌∷◌, ◌++◌, length, OnOk, OnSome, IfNone, option_to_list, vec_capacity};
ghost use Rattle.rss_tables.specs.Outs.{line_out, line_slot as slot_of_line, told};
ghost use Rattle.rss_tables.specs.Lines.{inquiry};

use crate::lists::Lists;
use crate::sending::Sending;
use rss_names::{Key, Seq, ShardId, Target};
use rss_wire::{Holder, Request};
use std::alloc::{AllocError, Global};
use std::collections::VecDeque;
use std::marker::Model;

/// The requests of one step, in order, and spare lists of keys and of writes for them, each with room
/// for eight. Contracts see the tables' list of requests, for how many more there is room, and how many
/// spare lists of each kind there are.
pub struct Outbox {
    queue: VecDeque<Sending>,
    keys: Lists<Key>,
    writes: Lists<(Key, u64)>,
}

impl Drop for Outbox {
    fn drop(self) {
        let Outbox {
            queue: _queue,
            keys: _keys,
            writes: _writes,
        } = self;
    }
}

impl Model for Outbox {
    ghost use Rattle.std.specs.Prelude.{◌-◌};
    ghost use Rattle.std.specs.VecDeque.{deque_len, deque_capacity};
    ghost use Rattle.session_outbox.specs.Outbox.{OutboxView};

    ghost Value = { OutboxView };

    ghost view = { λ o. record { outs = o.queue.items; room = deque_capacity o.queue - deque_len o.queue; keys = o.keys; writes = o.writes } };
}

impl Outbox {
    /// An empty outbox.
    pub fn new(alloc: Global) -> Outbox
        ensures { result.outs ≡ [] }
    {
        Outbox {
            queue: VecDeque::new(alloc),
            keys: Lists::new(alloc),
            writes: Lists::new(alloc),
        }
    }

    /// How many requests wait.
    pub fn len(&self) -> usize
        ensures { result ≡ length self.now.outs }
    {
        self.queue.len()
    }

    /// Whether no request waits.
    pub fn is_empty(&self) -> bool
        ensures { result ≡ (length self.now.outs == 0) }
    {
        self.queue.is_empty()
    }

    /// Takes the first request out, if there is one.
    pub fn pop(&mut self) -> Option<Sending>
        ensures first { self.old.outs ≡ option_to_list result ++ self.new.outs }
        ensures room { OnSome result (self.new.room ≡ self.old.room + 1) }
        ensures empty { IfNone result (self.old.outs ≡ []) }
        ensures keys { self.new.keys ≡ self.old.keys }
        ensures writes { self.new.writes ≡ self.old.writes }
    {
        self.queue.pop_front()
    }

    /// Makes room for this many requests more, and has at least this many spare lists of keys and of
    /// writes. An `Err` is want of memory: no request is lost, and there is no less room than before.
    pub fn make_room(
        &mut self,
        requests: usize,
        keys: usize,
        writes: usize,
    ) -> Result<(), AllocError>
        ensures outs { self.new.outs ≡ self.old.outs }
        ensures room { OnOk result (requests ≤ self.new.room) }
        ensures keys { OnOk result (keys ≤ self.new.keys) }
        ensures writes { OnOk result (writes ≤ self.new.writes) }
        ensures room_stays { self.old.room ≤ self.new.room }
        ensures keys_stay { self.old.keys ≤ self.new.keys }
        ensures writes_stay { self.old.writes ≤ self.new.writes }
    {
        self.queue.reserve(requests)?;
        self.keys.make_room(keys)?;
        self.writes.make_room(writes)
    }

    /// Appends a request of a line to its own shard, whose reply is awaited. Takes no memory.
    pub fn ask(&mut self, shard: ShardId, request: Request)
        requires room { 0 < self.old.room }
        ensures outs { self.new.outs ≡ self.old.outs ++ line_out shard request ∷ [] }
        ensures room { self.new.room + 1 ≡ self.old.room }
        ensures keys { self.new.keys ≡ self.old.keys }
        ensures writes { self.new.writes ≡ self.old.writes }
    {
        let slot = Some(line_slot(shard));
        self.queue
            .push_back_reserved(Sending::new(slot, Target::Shard(shard), request));
    }

    /// Appends a line's question to a holder's coordinator how the holder was decided. Takes no memory.
    pub fn inquire(&mut self, shard: ShardId, holder: &Holder)
        requires room { 0 < self.old.room }
        ensures outs { self.new.outs ≡ self.old.outs ++ inquiry shard holder.now ∷ [] }
        ensures room { self.new.room + 1 ≡ self.old.room }
        ensures keys { self.new.keys ≡ self.old.keys }
        ensures writes { self.new.writes ≡ self.old.writes }
    {
        let slot = Some(line_slot(shard));
        let coordinator = holder.coordinator;
        let request = Request::Inquire {
            attempt: holder.attempt,
        };
        self.queue
            .push_back_reserved(Sending::new(slot, Target::Shard(coordinator), request));
    }

    /// Appends a request to a shard to which no reply is awaited. Takes no memory.
    pub fn tell(&mut self, shard: ShardId, request: Request)
        requires room { 0 < self.old.room }
        ensures outs { self.new.outs ≡ self.old.outs ++ told shard request ∷ [] }
        ensures room { self.new.room + 1 ≡ self.old.room }
        ensures keys { self.new.keys ≡ self.old.keys }
        ensures writes { self.new.writes ≡ self.old.writes }
    {
        self.queue
            .push_back_reserved(Sending::new(None, Target::Shard(shard), request));
    }

    /// A list of these keys, eight at most, in a spare list. Takes no memory.
    pub fn keys(&mut self, keys: &[Key]) -> Seq<Key>
        requires list { 0 < self.old.keys }
        requires few { length keys.now ≤ 8 }
        ensures same { result ≡ keys.now }
        ensures outs { self.new.outs ≡ self.old.outs }
        ensures room { self.new.room ≡ self.old.room }
        ensures keys { self.new.keys + 1 ≡ self.old.keys }
        ensures writes { self.new.writes ≡ self.old.writes }
    {
        let mut list = self.keys.take();
        list.extend_from_slice(keys).unwrap();
        Seq::from_vec(list)
    }

    /// A spare list of writes, with room for eight. Takes no memory.
    pub fn writes(&mut self) -> Vec<(Key, u64)>
        requires list { 0 < self.old.writes }
        ensures empty { result.items ≡ [] }
        ensures wide { 8 ≤ vec_capacity result }
        ensures outs { self.new.outs ≡ self.old.outs }
        ensures room { self.new.room ≡ self.old.room }
        ensures keys { self.new.keys ≡ self.old.keys }
        ensures writes { self.new.writes + 1 ≡ self.old.writes }
    {
        self.writes.take()
    }
}

// The slot of a line, by its shard.
fn line_slot(shard: ShardId) -> u8
    ensures { result ≡ slot_of_line shard }
{
    shard.number() + 6
}
