//! The net: every message that was ever sent, and what became of it.

ghost use Rattle.std.specs.Prelude.{◌≡◌, ◌+◌, ◌-◌, ◌≤◌, ◌<◌, ◌^◌, max, length, vec_len, vec_capacity, true, false, ◌∷◌, None, Some, OnOk, OnErr, IfErr};
ghost use Rattle.std.specs.Option.{option_copied};
ghost use Rattle.rss_wire.specs.Messages.{no_message, no_messages, message_at, is_sent, sent_message, meets, asks, answers, delivers, loses, repeats, is_asked, envelope_at, request_at, reply_at, pending_count};
ghost use Rattle.std.specs.HashMap.{spare, Updates};
ghost use Rattle.rss_wire.specs.Line.{line_between, same_line, counted};
ghost use Rattle.rss_wire.specs.Net.{deliver_refusal, lose_refusal, again_refusal, fate_refusal, repeat_refusal};

use crate::envelope::Envelope;
use crate::message::{Body, Fate, Message};
use crate::messages::{Reply, Request};
use crate::ordinals::{Line, count_one};
use crate::refusal::NetRefusal;
use rss_names::{StageId, Target};
use std::alloc::{AllocError, Global};
use std::collections::HashMap;
use std::marker::Model;

/// Every message that was ever sent, by number. The numbers begin with 1, in the order sent, and no
/// message is ever taken out. Contracts see the list of all messages, with `no_message` at place 0,
/// and for how many more messages there is room. No call goes through all messages.
pub struct Net {
    messages: Vec<Message>,
    lines: HashMap<Line, u32>,
    pending: usize,
    room: usize,
}

// Written out, so that who lets a net go sees one call and none of its parts.
impl Drop for Net {
    fn drop(self) {
        let Net {
            messages: _messages,
            lines: _lines,
            pending: _pending,
            room: _room,
        } = self;
    }
}

impl Model for Net {
    ghost use Rattle.std.specs.Prelude.{◌∷◌};
    ghost use Rattle.rss_wire.specs.Messages.{no_message};
    ghost use Rattle.rss_wire.specs.Net.{NetView};

    ghost Value = { NetView };

    ghost use Rattle.rss_wire.specs.Kept.{IsKept};

    ghost view = { λ n. record { messages = no_message ∷ n.messages.items; room = n.room } };

    ghost invariant = { IsKept };
}

impl Net {
    /// A net on which nothing was sent, without room.
    pub fn new(alloc: Global) -> Net
        ensures empty { result.messages ≡ no_messages }
        ensures room { result.room ≡ 0 }
    {
        Net {
            messages: Vec::new(alloc),
            lines: HashMap::new(alloc),
            pending: 0,
            room: 0,
        }
    }

    /// Makes room for at least `n` more messages. An `Err` is want of memory.
    pub fn make_room(&mut self, n: usize) -> Result<(), AllocError>
        ensures same { self.new.messages ≡ self.old.messages }
        ensures room { OnOk result (self.new.room ≡ max self.old.room n) }
        ensures unchanged { OnErr result (self.new ≡ self.old) }
    {
        self.messages.reserve(n)?;
        self.lines.reserve(n)?;
        if self.room < n {
            self.room = n;
        }
        Ok(())
    }

    /// How many messages are neither delivered nor lost.
    pub fn pending(&self) -> usize
        ensures { result ≡ pending_count self.now.messages }
    {
        self.pending
    }

    /// Sends a request of the owner and stage to the target, and gives its number. Uses up one place
    /// of the room and takes no memory.
    pub fn ask(&mut self, owner: u32, stage: StageId, target: Target, body: Request) -> u32
        requires room { 0 < self.old.room }
        requires few { length self.old.messages < 2 ^ 32 }
        ensures number { result ≡ length self.old.messages }
        ensures sent { self.new.messages ≡ asks self.old.messages owner stage target body }
        ensures room { self.new.room + 1 ≡ self.old.room }
    {
        let number = next_number(&self.messages);
        let envelope = request_envelope(&mut self.lines, number, owner, stage, target);
        let message = Message {
            envelope,
            body: Body::Request(body),
            fate: Fate::Pending,
        };
        self.messages.push(message).unwrap();
        self.pending += 1;
        self.room -= 1;
        number
    }

    /// Sends a reply to the request of the number `exchange`, and gives its number. Uses up one place
    /// of the room and takes no memory.
    pub fn answer(&mut self, exchange: u32, body: Reply) -> u32
        requires room { 0 < self.old.room }
        requires few { length self.old.messages < 2 ^ 32 }
        requires asked { is_asked self.old.messages exchange ≡ true }
        ensures number { result ≡ length self.old.messages }
        ensures sent { self.new.messages ≡ answers self.old.messages exchange body }
        ensures room { self.new.room + 1 ≡ self.old.room }
    {
        let number = next_number(&self.messages);
        let envelope = reply_envelope(&self.messages, number, exchange);
        let message = Message {
            envelope,
            body: Body::Reply(body),
            fate: Fate::Pending,
        };
        self.messages.push(message).unwrap();
        self.pending += 1;
        self.room -= 1;
        number
    }

    /// The outside of a message. `None` exactly where none of this number was sent.
    pub fn envelope(&self, number: u32) -> Option<&Envelope>
        ensures { option_copied result ≡ envelope_at self.now.messages number }
    {
        let message = self.message(number)?;
        Some(&message.envelope)
    }

    /// A request's contents. `None` exactly where no request of this number was sent.
    pub fn request(&self, number: u32) -> Option<&Request>
        ensures { option_copied result ≡ request_at self.now.messages number }
    {
        let message = self.message(number)?;
        match &message.body {
            Body::Request(request) => Some(request),
            Body::Reply(_) => None,
        }
    }

    /// A reply's contents. `None` exactly where no reply of this number was sent.
    pub fn reply(&self, number: u32) -> Option<&Reply>
        ensures { option_copied result ≡ reply_at self.now.messages number }
    {
        let message = self.message(number)?;
        match &message.body {
            Body::Request(_) => None,
            Body::Reply(reply) => Some(reply),
        }
    }

    /// Why `deliver` would refuse this number, if it would.
    pub fn deliver_refusal(&self, number: u32) -> Option<NetRefusal>
        ensures { result ≡ deliver_refusal self.now.messages number }
    {
        match self.message(number) {
            None => Some(NetRefusal::NoSuchMessage),
            Some(message) => fate_refusal(message.fate),
        }
    }

    /// Why `lose` would refuse this number, if it would.
    pub fn lose_refusal(&self, number: u32) -> Option<NetRefusal>
        ensures { result ≡ lose_refusal self.now.messages number }
    {
        match self.message(number) {
            None => Some(NetRefusal::NoSuchMessage),
            Some(message) => fate_refusal(message.fate),
        }
    }

    /// Why `again` would refuse this number, if it would.
    pub fn again_refusal(&self, number: u32) -> Option<NetRefusal>
        ensures { result ≡ again_refusal self.now.messages number }
    {
        match self.message(number) {
            None => Some(NetRefusal::NoSuchMessage),
            Some(message) => repeat_refusal(message.fate),
        }
    }

    /// Delivers a pending message. Refuses a number that was never sent, a lost message and a
    /// delivered one.
    pub fn deliver(&mut self, number: u32) -> Result<(), NetRefusal>
        ensures refused { IfErr result (λ e. deliver_refusal self.old.messages number ≡ Some e) }
        ensures accepted { OnOk result (deliver_refusal self.old.messages number ≡ None) }
        ensures delivered { OnOk result (self.new.messages ≡ delivers self.old.messages number) }
        ensures room { self.new.room ≡ self.old.room }
        ensures unchanged { OnErr result (self.new ≡ self.old) }
    {
        if let Some(refusal) = self.deliver_refusal(number) {
            return Err(refusal);
        }
        meet(&mut self.messages, number, Fate::Delivered);
        self.pending -= 1;
        Ok(())
    }

    /// Loses a pending message. Refuses a number that was never sent, a lost message and a delivered
    /// one.
    pub fn lose(&mut self, number: u32) -> Result<(), NetRefusal>
        ensures refused { IfErr result (λ e. lose_refusal self.old.messages number ≡ Some e) }
        ensures accepted { OnOk result (lose_refusal self.old.messages number ≡ None) }
        ensures lost { OnOk result (self.new.messages ≡ loses self.old.messages number) }
        ensures room { self.new.room ≡ self.old.room }
        ensures unchanged { OnErr result (self.new ≡ self.old) }
    {
        if let Some(refusal) = self.lose_refusal(number) {
            return Err(refusal);
        }
        meet(&mut self.messages, number, Fate::Lost);
        self.pending -= 1;
        Ok(())
    }

    /// Delivers a message once more that was delivered once. Refuses a number that was never sent, a
    /// lost message, a pending one and one that was repeated before.
    pub fn again(&mut self, number: u32) -> Result<(), NetRefusal>
        ensures refused { IfErr result (λ e. again_refusal self.old.messages number ≡ Some e) }
        ensures accepted { OnOk result (again_refusal self.old.messages number ≡ None) }
        ensures repeated { OnOk result (self.new.messages ≡ repeats self.old.messages number) }
        ensures room { self.new.room ≡ self.old.room }
        ensures unchanged { OnErr result (self.new ≡ self.old) }
    {
        if let Some(refusal) = self.again_refusal(number) {
            return Err(refusal);
        }
        meet(&mut self.messages, number, Fate::Repeated);
        Ok(())
    }

    /// The message of this number, if it was sent.
    fn message(&self, number: u32) -> Option<&Message>
        ensures { option_copied result ≡ sent_message self.now.messages number }
    {
        let before = number.checked_sub(1)?;
        self.messages.get(before as usize)
    }
}

/// Why a message of this fate can't be delivered or lost, if so.
fn fate_refusal(fate: Fate) -> Option<NetRefusal>
    ensures { result ≡ fate_refusal fate }
{
    match fate {
        Fate::Pending => None,
        Fate::Delivered | Fate::Repeated => Some(NetRefusal::Delivered),
        Fate::Lost => Some(NetRefusal::Lost),
    }
}

/// Why a message of this fate can't be repeated, if so.
fn repeat_refusal(fate: Fate) -> Option<NetRefusal>
    ensures { result ≡ repeat_refusal fate }
{
    match fate {
        Fate::Pending => Some(NetRefusal::NotDelivered),
        Fate::Delivered => None,
        Fate::Repeated => Some(NetRefusal::AgainUsed),
        Fate::Lost => Some(NetRefusal::Lost),
    }
}

/// Gives the message of this number its fate.
fn meet(messages: &mut Vec<Message>, number: u32, fate: Fate)
    requires sent { is_sent (no_message ∷ messages.old.items) number ≡ true }
    ensures fate { no_message ∷ messages.new.items ≡ meets (no_message ∷ messages.old.items) number fate }
    ensures len { vec_len messages.new ≡ vec_len messages.old }
    ensures capacity { vec_capacity messages.new ≡ vec_capacity messages.old }
{
    messages[number as usize - 1].fate = fate;
}

/// The number of the next message.
fn next_number(messages: &Vec<Message>) -> u32
    requires { vec_len messages.now + 1 < 2 ^ 32 }
    ensures { result ≡ vec_len messages.now + 1 }
{
    messages.len() as u32 + 1
}

/// The outside of a reply of this number to the request of the number `exchange`.
fn reply_envelope(messages: &Vec<Message>, number: u32, exchange: u32) -> Envelope
    requires asked { is_asked (no_message ∷ messages.now.items) exchange ≡ true }
    ensures { result ≡ record (message_at (no_message ∷ messages.now.items) exchange).envelope { number = number; exchange = exchange; request = false } }
{
    let request = &messages[exchange as usize - 1];
    Envelope {
        number,
        exchange,
        request: false,
        ..request.envelope
    }
}

/// The outside of a request of this number, which is counted.
fn request_envelope(
    lines: &mut HashMap<Line, u32>,
    number: u32,
    owner: u32,
    stage: StageId,
    target: Target,
) -> Envelope
    requires room { 0 < spare lines.old }
    requires few { counted lines.old (line_between stage target) < 2 ^ 32 - 1 }
    ensures envelope { result ≡ record { number = number; owner = owner; stage = stage; exchange = number; target = target; ordinal = counted lines.old (line_between stage target) + 1; request = true } }
    ensures counted { Updates same_line lines.old lines.new (line_between stage target) (Some result.ordinal) }
    ensures spare { spare lines.old ≤ spare lines.new + 1 }
{
    let mut envelope = Envelope {
        number,
        owner,
        stage,
        exchange: number,
        target,
        ordinal: 0,
        request: true,
    };
    envelope.ordinal = count_one(lines, envelope.stage, envelope.target);
    envelope
}
