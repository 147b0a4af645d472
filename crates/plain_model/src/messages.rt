//! Which calls are before which others by messages, and which read from which.

ghost use Rattle.std.specs.Prelude.{◌≡◌, ◌≤◌, [], length, vec_len, IfOk};
ghost use Rattle.plain_model.specs.Messages.{gets as gets_token, carries as carries_token, leads as leads_to, leads_from as leads_from_marked, behind as behind_places, begins_marked as begins_at_mark, names_writer as names_call, is_writer as has_written, names_in, generates as is_generated};
ghost use Rattle.plain_model.specs.Found.{found_reply};
ghost use Rattle.rss_model.specs.Stages.{stage_of as stage_of_call, entry_stage as stage_of_entry};

use crate::calls::{begins, ends, reply_of};
use rss_model::{Entry, Shown, Token, is_same_token};
use rss_names::CallId;
use std::alloc::{AllocError, Global};

/// For each place of a history whether a path of messages leads there from the End of a call.
pub(crate) fn behind(alloc: Global, h: &[Entry], call: CallId) -> Result<Vec<bool>, AllocError>
    ensures same { IfOk result (λ marks. marks.items ≡ behind_places h.now call) }
    ensures sized { IfOk result (λ marks. vec_len marks ≡ length h.now) }
{
    let mut marks = Vec::new(alloc);
    for entry in h {
        let mark = ends(entry, call) || leads_from(h, &marks, entry);
        marks.push(mark)?;
    }
    Ok(marks)
}

/// Whether a pair of calls generates potential causality, where these places are those that the
/// first one is behind.
pub(crate) fn generates(h: &[Entry], behind: &[bool], a: CallId, b: CallId) -> bool
    requires behind { behind.now ≡ behind_places h.now a }
    requires sized { length behind.now ≤ length h.now }
    ensures { result ≡ is_generated h.now a b }
{
    begins_marked(behind, h, b) || reads_from(h, a, b)
}

// Whether the reply of b names a as a writer.
fn reads_from(h: &[Entry], a: CallId, b: CallId) -> bool
    ensures { result ≡ names_in (found_reply h.now b) a }
{
    match reply_of(h, b) {
        Some(reply) => names_writer(reply.as_slice(), a),
        None => false,
    }
}

// Whether a reply names a call as a writer.
fn names_writer(reply: &[Shown], call: CallId) -> bool
    ensures { result ≡ names_call reply.now call }
{
    for shown in reply {
        if is_writer(shown.writer, call) {
            return true;
        }
    }
    false
}

// Whether this call wrote what was shown; writer 0 is no call.
fn is_writer(writer: u32, call: CallId) -> bool
    ensures { result ≡ has_written writer call }
{
    match CallId::new(writer) {
        Some(writer) => writer == call,
        None => false,
    }
}

// Whether a call begins at a marked place.
fn begins_marked(marks: &[bool], h: &[Entry], call: CallId) -> bool
    requires { length marks.now ≤ length h.now }
    ensures { result ≡ begins_at_mark marks.now h.now call }
{
    for (place, mark) in marks.iter().enumerate() {
        if *mark && begins(&h[place], call) {
            return true;
        }
    }
    false
}

// Whether one of the marked entries leads to this one.
fn leads_from(h: &[Entry], marks: &[bool], entry: &Entry) -> bool
    requires { length marks.now ≤ length h.now }
    ensures { result ≡ leads_from_marked h.now marks.now h.now entry.now }
{
    for (place, mark) in marks.iter().enumerate() {
        if *mark && leads(h, &h[place], entry) {
            return true;
        }
    }
    false
}

// Whether an entry leads to a later one: along its stage, or by the token that it gives.
fn leads(h: &[Entry], from: &Entry, to: &Entry) -> bool
    ensures { result ≡ leads_to h.now from.now to.now }
{
    entry_stage(h, from) == entry_stage(h, to) || carries(from, to)
}

// Whether an entry gives the token that another one gets.
fn carries(from: &Entry, to: &Entry) -> bool
    ensures { result ≡ carries_token from.now to.now }
{
    match from {
        Entry::Give(_, token) => gets(to, token),
        _ => false,
    }
}

// Whether an entry gets a token.
fn gets(entry: &Entry, token: &Token) -> bool
    ensures { result ≡ gets_token token.now entry.now }
{
    match entry {
        Entry::Get(_, got) => is_same_token(token, got),
        _ => false,
    }
}

// The number of the stage of an entry: of an End, the stage that began its call, or else 0.
fn entry_stage(h: &[Entry], entry: &Entry) -> u8
    ensures { result ≡ stage_of_entry h.now entry.now }
{
    match entry {
        Entry::Begin(_, stage, _) => stage.number(),
        Entry::End(call, _) => stage_of(h, *call),
        Entry::Give(stage, _) => stage.number(),
        Entry::Get(stage, _) => stage.number(),
        Entry::Over(stage, _) => stage.number(),
    }
}

// The number of the stage that began a call, 0 where none did.
#[tactic(auto, unfolding(rss_model::specs::Stages::stage_of))]
fn stage_of(h: &[Entry], call: CallId) -> u8
    ensures { result ≡ stage_of_call h.now call }
{
    for entry in h {
        if let Entry::Begin(begun, stage, _) = entry
            && *begun == call
        {
            return stage.number();
        }
    }
    0
}
