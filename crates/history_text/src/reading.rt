//! A history while it is read: its entries, and what the next ones need of them.

ghost use Rattle.std.specs.Prelude.{◌≡◌, ◌++◌, ◌∷◌, [], true, false, OnOk, MatchOption};
ghost use Rattle.rss_model.specs.History.{has_begun as was_begun, op_of};
ghost use Rattle.history_index.specs.Following.{is_open, gave as was_given, may_follow};

use history_index::{HistoryIndex, op_at};
use rss_model::{Entry, History, Op, Token};
use rss_names::{CallId, Seq};
use std::alloc::{AllocError, Global};
use std::marker::Model;

/// The entries of a history that were read. Contracts see their list.
pub struct Reading {
    entries: Vec<Entry>,
    index: HistoryIndex,
}

// Written out, so that who lets a reading go sees one call and none of its parts.
impl Drop for Reading {
    fn drop(self) {
        let Reading {
            entries: _entries,
            index: _index,
        } = self;
    }
}

impl Model for Reading {
    ghost use Rattle.std.specs.Prelude.{List};
    ghost use Rattle.rss_model.specs.declared.history.Entry.{Entry};
    ghost use Rattle.history_text.specs.Kept.{IsKept};

    ghost Value = { List Entry };

    ghost view = { λ r. r.entries.items };

    ghost invariant = { IsKept };
}

impl Reading {
    /// No entries.
    pub fn new(alloc: Global) -> Reading
        ensures { result ≡ [] }
    {
        Reading {
            entries: Vec::new(alloc),
            index: HistoryIndex::new(alloc),
        }
    }

    /// Whether a call has begun.
    pub fn has_begun(&self, call: CallId) -> bool
        ensures { result ≡ was_begun self.now call }
    {
        self.index.begun(call).is_some()
    }

    /// The operation of a call that has begun and not ended, if it is such a one.
    #[tactic(auto, using(history_index::proofs::There::op_there_is))]
    pub fn open_op(&self, call: CallId) -> Option<&Op>
        ensures { MatchOption result (is_open self.now call ≡ false) (λ op.
            (is_open self.now call ≡ true) × (op.now ≡ op_of self.now call)) }
    {
        let begun = self.index.begun(call)?;
        if begun.end.is_some() {
            return None;
        }
        op_at(self.entries.as_slice(), begun.begin)
    }

    /// Whether a message was given.
    pub fn gave(&self, token: Token) -> bool
        ensures { result ≡ was_given self.now token }
    {
        self.index.gave(token)
    }

    /// Adds an entry that may stand behind these.
    #[tactic(auto, using(history_index::proofs::Indexed::indexed_more))]
    pub fn add(&mut self, entry: Entry) -> Result<(), AllocError>
        requires { may_follow self.old entry ≡ true }
        ensures { OnOk result (self.new ≡ self.old ++ entry ∷ []) }
    {
        self.entries.reserve(1)?;
        self.index.note(self.entries.len(), &entry)?;
        self.entries.push(entry).unwrap();
        Ok(())
    }

    /// The history that was read.
    pub fn into_history(self) -> History
        ensures { result ≡ self }
    {
        let Reading {
            entries,
            index: _index,
        } = self;
        Seq::from_vec(entries)
    }
}
