//! What a history says of each call.

ghost use Rattle.std.specs.Prelude.{◌≡◌, [], ℕ, IfOk, OnOk};
ghost use Rattle.std.specs.Option.{option_copied};
ghost use Rattle.plain_model.specs.Found.{found_op, found_reply};
ghost use Rattle.rss_model.specs.History.{begins, ends};
ghost use Rattle.call_tables.specs.Tables.{held, first_of, here_if, op_at, reply_at, AreTables};

use crate::noting::{held_at, note};
use rss_model::{Entry, Op, Reply};
use rss_names::CallId;
use std::alloc::{AllocError, Global};
use std::marker::Model;

/// A history with the places of the entries that begin and end each call, by the call's number.
/// Contracts see the history.
#[derive(Drop)]
pub struct CallTables<'a> {
    history: &'a [Entry],
    begun: Vec<Option<usize>>,
    ended: Vec<Option<usize>>,
}

impl<'a> Model for CallTables<'a> {
    ghost use Rattle.std.specs.Prelude.{List};
    ghost use Rattle.rss_model.specs.declared.history.Entry.{Entry};
    ghost use Rattle.call_tables.specs.Tables.{AreTables};

    ghost Value = { List Entry };

    ghost view = { λ t. t.history.now };

    ghost invariant = { λ t. AreTables t.history.now t.begun.items t.ended.items };
}

impl<'a> CallTables<'a> {
    /// The tables of a history, made in one pass. An `Err` is want of memory.
    pub fn new(alloc: Global, history: &'a [Entry]) -> Result<CallTables<'a>, AllocError>
        ensures { IfOk result (λ t. t ≡ history.now) }
    {
        let mut begun = Vec::new(alloc);
        let mut ended = Vec::new(alloc);
        note_all(&mut begun, &mut ended, history)?;
        Ok(CallTables {
            history,
            begun,
            ended,
        })
    }

    /// The operation of a call, if it has begun.
    #[tactic(auto, using(crate::proofs::Finding::telling))]
    pub fn op_of(&self, call: CallId) -> Option<&'a Op>
        ensures { option_copied result ≡ found_op self.now call }
    {
        match held_at(&self.begun, call.number()) {
            Some(at) => op_in(self.history, at),
            None => None,
        }
    }

    /// The reply of a call, if it has ended.
    #[tactic(auto, using(crate::proofs::Finding::telling))]
    pub fn reply_of(&self, call: CallId) -> Option<&'a Reply>
        ensures { option_copied result ≡ found_reply self.now call }
    {
        match held_at(&self.ended, call.number()) {
            Some(at) => reply_in(self.history, at),
            None => None,
        }
    }
}

// The operation that the entry at a place begins, if it begins one.
fn op_in<'a>(history: &'a [Entry], at: usize) -> Option<&'a Op>
    ensures { option_copied result ≡ op_at history.now at }
{
    if at >= history.len() {
        return None;
    }
    match &history[at] {
        Entry::Begin(_, _, op) => Some(op),
        _ => None,
    }
}

// The reply with which the entry at a place ends a call, if it ends one.
fn reply_in<'a>(history: &'a [Entry], at: usize) -> Option<&'a Reply>
    ensures { option_copied result ≡ reply_at history.now at }
{
    if at >= history.len() {
        return None;
    }
    match &history[at] {
        Entry::End(_, reply) => Some(reply),
        _ => None,
    }
}

// Notes where each call begins and ends.
fn note_all(
    begun: &mut Vec<Option<usize>>,
    ended: &mut Vec<Option<usize>>,
    history: &[Entry],
) -> Result<(), AllocError>
    requires begun { begun.old.items ≡ [] }
    requires ended { ended.old.items ≡ [] }
    ensures { OnOk result (AreTables history.now begun.new.items ended.new.items) }
{
    for (at, entry) in history.iter().enumerate() {
        note_entry(begun, ended, entry, at)?;
    }
    Ok(())
}

// Notes the place of an entry, where it is the first one that begins or ends its call.
fn note_entry(
    begun: &mut Vec<Option<usize>>,
    ended: &mut Vec<Option<usize>>,
    entry: &Entry,
    at: usize,
) -> Result<(), AllocError>
    ensures begun { OnOk result ((n : ℕ) →
        held begun.new.items n ≡ first_of (held begun.old.items n) (here_if (begins n entry.now) at)) }
    ensures ended { OnOk result ((n : ℕ) →
        held ended.new.items n ≡ first_of (held ended.old.items n) (here_if (ends n entry.now) at)) }
{
    match entry {
        Entry::Begin(call, _, _) => note(begun, call.number(), at),
        Entry::End(call, _) => note(ended, call.number(), at),
        Entry::Give(_, _) => Ok(()),
        Entry::Get(_, _) => Ok(()),
        Entry::Over(_, _) => Ok(()),
    }
}
