//! The least call that does not stand behind all that it can know of.

ghost use Rattle.std.specs.Prelude.{◌≡◌, ℕ, ◌==◌, max, cond, length, Some, IfOk, OnOk, if◌then◌else◌};
ghost use Rattle.indexmap.specs.IndexMap.{get};
ghost use Rattle.rss_model.specs.declared.history.Token.{Token};
ghost use Rattle.rss_model.specs.Stages.{stage_of as stage_by};
ghost use Rattle.rss_model.specs.Tokens.{same_token};
ghost use Rattle.history_index.specs.declared.messages.MessageKey.{MessageKey};
ghost use Rattle.history_index.specs.Kept.{Indexes, key_of_message, same_message};
ghost use Rattle.rss_check.specs.Places.{kept};
ghost use Rattle.rss_check.specs.Tops.{top_after};
ghost use Rattle.rss_check.specs.Bad.{IsLeastBad, IsUncaused, lesser as lesser_of, least_with};
ghost use Rattle.rss_check.specs.Passes.{kept_of_message, tops_of};

use crate::places::{Places, place_of};
use history_index::{HistoryIndex, MessageKey, message_key, stage_at};
use indexmap::IndexMap;
use rss_model::{Entry, Token};
use rss_names::CallId;
use std::alloc::{AllocError, Global};

/// The greatest place behind each stage and each message; those that are not there have none.
pub struct StageTops {
    pub stages: IndexMap<u8, usize>,
    pub messages: IndexMap<MessageKey, usize>,
}

// Written out, so that who lets tops go sees one call and none of their parts.
impl Drop for StageTops {
    fn drop(self) {
        let StageTops {
            stages: _stages,
            messages: _messages,
        } = self;
    }
}

/// The greatest place behind a stage, 0 where there is none.
fn stage_top(stages: &IndexMap<u8, usize>, stage: u8) -> usize
    ensures { result ≡ kept stages.now stage }
{
    match stages.get(&stage) {
        Some(top) => *top,
        None => 0,
    }
}

/// The greatest place behind a message, 0 where there is none.
fn message_top(messages: &IndexMap<MessageKey, usize>, message: MessageKey) -> usize
    ensures { result ≡ kept_of_message messages.now message }
{
    match messages.get(&message) {
        Some(top) => *top,
        None => 0,
    }
}

/// A place, too, is behind a stage.
fn raise_stage(stages: &mut IndexMap<u8, usize>, stage: u8, place: usize) -> Result<(), AllocError>
    ensures { OnOk result ((other : ℕ) →
        kept stages.new other ≡ max (kept stages.old other) (if stage == other then place else 0)) }
{
    let top = stage_top(stages, stage).max(place);
    match stages.insert(stage, top) {
        Ok(_) => Ok(()),
        Err(_) => Err(AllocError),
    }
}

/// Keeps the greatest place behind a message.
fn put_top(
    messages: &mut IndexMap<MessageKey, usize>,
    message: MessageKey,
    top: usize,
) -> Result<(), AllocError>
    ensures { OnOk result ((other : MessageKey) → get same_message messages.new other ≡
        cond (same_message message other) (Some top) (get same_message messages.old other)) }
{
    match messages.insert(message, top) {
        Ok(_) => Ok(()),
        Err(_) => Err(AllocError),
    }
}

/// A place, too, is behind a message.
fn raise_message(
    messages: &mut IndexMap<MessageKey, usize>,
    token: Token,
    place: usize,
) -> Result<(), AllocError>
    ensures { OnOk result ((other : Token) →
        kept_of_message messages.new (key_of_message other) ≡
        max (kept_of_message messages.old (key_of_message other)) (if same_token token other then place else 0)) }
{
    let message = message_key(token);
    let top = message_top(messages, message).max(place);
    put_top(messages, message, top)?;
    Ok(())
}

/// The number of the stage that began a call, 0 where none did.
#[tactic(auto, using(crate::proofs::Found::stage_found, crate::proofs::Found::stage_missing))]
fn stage_number(h: &[Entry], index: &HistoryIndex, call: CallId) -> u8
    requires { Indexes h.now index.now }
    ensures { result ≡ stage_by h.now call }
{
    match index.begun(call) {
        Some(begun) => match stage_at(h, begun.begin) {
            Some(stage) => stage.number(),
            None => 0,
        },
        None => 0,
    }
}

impl StageTops {
    /// Behind nothing is any call.
    fn new(alloc: Global) -> StageTops
        ensures stages { (stage : ℕ) → kept result.stages stage ≡ 0 }
        ensures messages { (token : Token) → kept_of_message result.messages (key_of_message token) ≡ 0 }
    {
        StageTops {
            stages: IndexMap::new(alloc),
            messages: IndexMap::new(alloc),
        }
    }

    /// Goes on by an entry.
    fn note(
        &mut self,
        h: &[Entry],
        index: &HistoryIndex,
        places: &Places,
        entry: &Entry,
    ) -> Result<(), AllocError>
        requires { Indexes h.now index.now }
        ensures stages { OnOk result ((stage : ℕ) → kept self.new.stages stage ≡
            (top_after h.now (kept places.now) (tops_of self.old) entry.now).stage stage) }
        ensures messages { OnOk result ((token : Token) → kept_of_message self.new.messages (key_of_message token) ≡
            (top_after h.now (kept places.now) (tops_of self.old) entry.now).message token) }
    {
        match entry {
            Entry::Begin(_, _, _) => Ok(()),
            Entry::End(call, _) => {
                let stage = stage_number(h, index, *call);
                raise_stage(&mut self.stages, stage, place_of(places, *call))
            }
            Entry::Give(giver, token) => {
                let top = stage_top(&self.stages, giver.number());
                raise_message(&mut self.messages, *token, top)
            }
            Entry::Get(getter, token) => {
                let top = message_top(&self.messages, message_key(*token));
                raise_stage(&mut self.stages, getter.number(), top)
            }
            Entry::Over(_, _) => Ok(()),
        }
    }
}

/// The lesser of a call and the least so far.
pub fn lesser(least: Option<CallId>, call: CallId) -> Option<CallId>
    ensures { result ≡ lesser_of least call }
{
    match least {
        Some(other) => {
            if call.number() < other.number() {
                Some(call)
            } else {
                Some(other)
            }
        }
        None => Some(call),
    }
}

/// The least so far, and the call that an entry begins, if it begins one that stands before a call
/// that is behind its stage.
fn with_begun(
    least: Option<CallId>,
    tops: &StageTops,
    places: &Places,
    entry: &Entry,
) -> Option<CallId>
    ensures { result ≡ least_with least (kept tops.now.stages) (kept places.now) entry.now }
{
    match entry {
        Entry::Begin(call, stage, _) => {
            let place = place_of(places, *call);
            if place > 0 && place <= stage_top(&tops.stages, stage.number()) {
                lesser(least, *call)
            } else {
                least
            }
        }
        Entry::End(_, _) => least,
        Entry::Give(_, _) => least,
        Entry::Get(_, _) => least,
        Entry::Over(_, _) => least,
    }
}

/// The least call that stands before one that is behind its stage when it begins. None where there
/// is none.
pub fn least_uncaused(
    alloc: Global,
    h: &[Entry],
    index: &HistoryIndex,
    places: &Places,
) -> Result<Option<CallId>, AllocError>
    requires { Indexes h.now index.now }
    ensures { IfOk result (λ least. IsLeastBad (IsUncaused h.now (kept places.now)) (length h.now) least) }
{
    let mut tops = StageTops::new(alloc);
    let mut least = None;
    for entry in h {
        least = with_begun(least, &tops, places, entry);
        tops.note(h, index, places, entry)?;
    }
    Ok(least)
}
