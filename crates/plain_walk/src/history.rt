//! What a history says of stages and of what was given.

ghost use Rattle.std.specs.Prelude.{◌≡◌};
ghost use Rattle.rss_model.specs.Stages.{ending_of as over_how, entry_stage as stage_of_entry, stage_of as stage_of_call, wait_status as status_behind};
ghost use Rattle.script_laws.specs.Steps.{gives_exit as exit_is_given, gave_exit as exit_was_given, is_dead as died_unfenced, gives_past as is_given_past, gave_past as was_given_past};
ghost use Rattle.script_laws.specs.Entries.{gives as is_given, gave as was_given};

use rss_model::{Entry, How, Token, is_same_token};
use rss_names::CallId;

// Whether an entry gives a token.
fn gives(token: &Token, entry: &Entry) -> bool
    ensures { result ≡ is_given token.now entry.now }
{
    match entry {
        Entry::Give(_, given) => is_same_token(given, token),
        _ => false,
    }
}

/// Whether one of these entries gives a token.
pub(crate) fn gave(token: &Token, entries: &[Entry]) -> bool
    ensures { result ≡ was_given token.now entries.now }
{
    for entry in entries {
        if gives(token, entry) {
            return true;
        }
    }
    false
}

// Whether an entry gives the exit of this stage, by the stage itself.
fn gives_exit(stage: u8, entry: &Entry) -> bool
    ensures { result ≡ exit_is_given stage entry.now }
{
    match entry {
        Entry::Give(giver, Token::Exit(exited)) => {
            giver.number() == stage && exited.number() == stage
        }
        _ => false,
    }
}

// Whether one of these entries does.
fn gave_exit(stage: u8, h: &[Entry]) -> bool
    ensures { result ≡ exit_was_given stage h.now }
{
    for entry in h {
        if gives_exit(stage, entry) {
            return true;
        }
    }
    false
}

// How a stage is over, if it is.
#[tactic(auto, unfolding(rss_model::specs::Stages::ending_of))]
fn ending_of(h: &[Entry], stage: u8) -> Option<How>
    ensures { result ≡ over_how h.now stage }
{
    for entry in h {
        if let Entry::Over(over, how) = entry
            && over.number() == stage
        {
            return Some(*how);
        }
    }
    None
}

/// Whether a stage died, and its exit was not given.
pub(crate) fn is_dead(h: &[Entry], stage: u8) -> bool
    ensures { result ≡ died_unfenced h.now stage }
{
    match ending_of(h, stage) {
        None | Some(How::Exited) => false,
        Some(How::Killed | How::Unavailable) => !gave_exit(stage, h),
    }
}

// Whether an entry gives a chunk of this pipe, by this giver, past this number.
fn gives_past(giver: u8, pipe: u8, number: u32, entry: &Entry) -> bool
    ensures { result ≡ is_given_past giver pipe number entry.now }
{
    match entry {
        Entry::Give(stage, Token::Chunk(into, chunk)) => {
            stage.number() == giver && (*into == pipe && !(*chunk <= number))
        }
        _ => false,
    }
}

/// Whether one of these entries does.
pub(crate) fn gave_past(giver: u8, pipe: u8, number: u32, h: &[Entry]) -> bool
    ensures { result ≡ was_given_past giver pipe number h.now }
{
    for entry in h {
        if gives_past(giver, pipe, number, entry) {
            return true;
        }
    }
    false
}

/// The status that a `wait` for a stage sets: 0 where it exited, and else 1.
pub(crate) fn wait_status(h: &[Entry], stage: u8) -> u64
    ensures { result ≡ status_behind h.now stage }
{
    match ending_of(h, stage) {
        Some(How::Exited) => 0,
        Some(How::Killed | How::Unavailable) | None => 1,
    }
}

/// The number of the stage of an entry: of an End, the stage that began its call, or else 0.
pub fn entry_stage(h: &[Entry], entry: &Entry) -> u8
    ensures { result ≡ stage_of_entry h.now entry.now }
{
    match entry {
        Entry::Begin(_, stage, _) => stage.number(),
        Entry::End(call, _) => stage_of(h, *call),
        Entry::Give(stage, _) => stage.number(),
        Entry::Get(stage, _) => stage.number(),
        Entry::Over(stage, _) => stage.number(),
    }
}

// The number of the stage that began a call, 0 where none did.
#[tactic(auto, unfolding(rss_model::specs::Stages::stage_of))]
fn stage_of(h: &[Entry], call: CallId) -> u8
    ensures { result ≡ stage_of_call h.now call }
{
    for entry in h {
        if let Entry::Begin(begun, stage, _) = entry
            && *begun == call
        {
            return stage.number();
        }
    }
    0
}
