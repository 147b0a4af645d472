//! The index of a history.

ghost use Rattle.std.specs.Prelude.{◌≡◌, ℕ, [], ◌++◌, ◌∷◌, length, true, cond, nat_eq, Some, IfOk, OnOk, OnErr, option_map};
ghost use Rattle.std.specs.Option.{option_copied};
ghost use Rattle.indexmap.specs.IndexMap.{get};
ghost use Rattle.indexmap.specs.IndexSet.{contains};
ghost use Rattle.history_index.specs.declared.messages.MessageKey.{MessageKey};
ghost use Rattle.history_index.specs.Following.{is_well_formed};
ghost use Rattle.history_index.specs.Kept.{key_of_message, same_message, with_end, Indexes, Notes, IsAlike};

use crate::messages::{MessageKey, message_key};
use indexmap::{IndexMap, IndexSet};
use rss_model::{Entry, Token};
use rss_names::CallId;
use std::alloc::{AllocError, Global};

/// The place at which a call begins, and that at which it ends, if it does; both from 0.
#[derive(Clone, Copy)]
pub struct Begun {
    pub begin: usize,
    pub end: Option<usize>,
}

/// The calls of a history by their numbers, and the messages that were given.
pub struct HistoryIndex {
    pub calls: IndexMap<u32, Begun>,
    pub given: IndexSet<MessageKey>,
}

// Written out, so that who lets an index go sees one call and none of its parts.
impl Drop for HistoryIndex {
    fn drop(self) {
        let HistoryIndex {
            calls: _calls,
            given: _given,
        } = self;
    }
}

/// Keeps this of a call. Where memory is wanting, all stays.
fn put_call(calls: &mut IndexMap<u32, Begun>, call: CallId, begun: Begun) -> Result<(), AllocError>
    ensures put { OnOk result ((other : ℕ) →
        get nat_eq calls.new other ≡ cond (nat_eq call other) (Some begun) (get nat_eq calls.old other)) }
    ensures unchanged { OnErr result (calls.new.entries ≡ calls.old.entries) }
{
    match calls.insert(call.number(), begun) {
        Ok(_) => Ok(()),
        Err(_) => Err(AllocError),
    }
}

/// Keeps where a call, if it has begun, has ended. Where memory is wanting, all stays.
fn end_call(calls: &mut IndexMap<u32, Begun>, call: CallId, place: usize) -> Result<(), AllocError>
    ensures ended { OnOk result ((other : ℕ) →
        get nat_eq calls.new other ≡ cond (nat_eq call other) (with_end (get nat_eq calls.old call) place) (get nat_eq calls.old other)) }
    ensures unchanged { OnErr result (calls.new.entries ≡ calls.old.entries) }
{
    match calls.get(&call.number()).copied() {
        Some(begun) => {
            let ended = Begun {
                begin: begun.begin,
                end: Some(place),
            };
            put_call(calls, call, ended)
        }
        None => Ok(()),
    }
}

/// Keeps that a message was given. Where memory is wanting, all stays.
fn put_message(given: &mut IndexSet<MessageKey>, token: Token) -> Result<(), AllocError>
    ensures put { OnOk result ((other : MessageKey) →
        contains same_message given.new other ≡ cond (same_message (key_of_message token) other) true (contains same_message given.old other)) }
    ensures unchanged { OnErr result (given.new.keys ≡ given.old.keys) }
{
    match given.insert(message_key(token)) {
        Ok(_) => Ok(()),
        Err(_) => Err(AllocError),
    }
}

impl HistoryIndex {
    /// The index of no entries.
    #[tactic(auto, using(crate::proofs::Indexed::none_indexed))]
    pub fn new(alloc: Global) -> HistoryIndex
        ensures { Indexes [] result }
    {
        HistoryIndex {
            calls: IndexMap::new(alloc),
            given: IndexSet::new(alloc),
        }
    }

    /// Where a call begins and ends. None where it does not begin.
    pub fn begun(&self, call: CallId) -> Option<Begun>
        ensures { result ≡ get nat_eq self.now.calls call }
    {
        self.calls.get(&call.number()).copied()
    }

    /// Whether a message was given.
    pub fn gave(&self, token: Token) -> bool
        ensures { result ≡ contains same_message self.now.given (key_of_message token) }
    {
        self.given.contains(&message_key(token))
    }

    /// Notes what an entry does that stands at this place. Where memory is wanting, nothing is noted.
    pub fn note(&mut self, place: usize, entry: &Entry) -> Result<(), AllocError>
        ensures noted { OnOk result (Notes self.old self.new place entry.now) }
        ensures unchanged { OnErr result (IsAlike self.old self.new) }
    {
        match entry {
            Entry::Begin(call, _, _) => {
                let begun = Begun {
                    begin: place,
                    end: None,
                };
                put_call(&mut self.calls, *call, begun)
            }
            Entry::End(call, _) => end_call(&mut self.calls, *call, place),
            Entry::Give(_, token) => put_message(&mut self.given, *token),
            Entry::Get(_, _) => Ok(()),
            Entry::Over(_, _) => Ok(()),
        }
    }
}

/// The index of a history in which each entry may stand behind those above it.
pub fn index_history(alloc: Global, h: &[Entry]) -> Result<HistoryIndex, AllocError>
    requires { is_well_formed h.now ≡ true }
    ensures { IfOk result (λ index. Indexes h.now index) }
{
    let mut index = HistoryIndex::new(alloc);
    for (place, entry) in h.iter().enumerate() {
        index.note(place, entry)?;
    }
    Ok(index)
}
