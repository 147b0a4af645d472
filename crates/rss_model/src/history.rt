//! Histories: what stages did, in the order in which it happened.

ghost use Rattle.std.specs.Prelude.{◌≡◌, IfOk};
ghost use Rattle.rss_model.specs.Tokens.{same_token};

use crate::op::{Op, Reply};
use rss_names::{CallId, Seq, StageId};
use std::alloc::{AllocError, Global};

/// One entry of a history.
pub enum Entry {
    /// A stage begins a call.
    Begin(CallId, StageId, Op),
    /// A call ends with its reply.
    End(CallId, Reply),
    /// A stage gives a message away.
    Give(StageId, Token),
    /// A stage gets a message.
    Get(StageId, Token),
    /// A stage is over.
    Over(StageId, How),
}

// Written out, so that who lets an entry go sees one call and none of its parts.
impl Drop for Entry {
    fn drop(self) {
        match self {
            Entry::Begin(_call, _stage, _op) => {}
            Entry::End(_call, _reply) => {}
            Entry::Give(_stage, _token) => {}
            Entry::Get(_stage, _token) => {}
            Entry::Over(_stage, _how) => {}
        }
    }
}

impl Entry {
    /// An equal entry.
    pub fn try_clone(&self, alloc: Global) -> Result<Entry, AllocError>
        ensures { IfOk result (λ copy. copy ≡ self.now) }
    {
        match self {
            Entry::Begin(call, stage, op) => Ok(Entry::Begin(*call, *stage, op.try_clone(alloc)?)),
            Entry::End(call, reply) => Ok(Entry::End(*call, reply.try_clone(alloc)?)),
            Entry::Give(stage, token) => Ok(Entry::Give(*stage, *token)),
            Entry::Get(stage, token) => Ok(Entry::Get(*stage, *token)),
            Entry::Over(stage, how) => Ok(Entry::Over(*stage, *how)),
        }
    }
}

/// A message from stage to stage. Each is given at most once.
#[derive(Clone, Copy, PartialEq, Eq)]
pub enum Token {
    /// The start of a spawned stage.
    Spawn(StageId),
    /// A chunk, or the end mark, of a pipe, by its number in the pipe.
    Chunk(u8, u32),
    /// The exit of a stage.
    Exit(StageId),
}

/// Whether two tokens are the same.
pub fn is_same_token(a: &Token, b: &Token) -> bool
    ensures { result ≡ same_token a.now b.now }
{
    *a == *b
}

/// How a stage is over.
#[derive(Clone, Copy, PartialEq, Eq)]
pub enum How {
    Exited,
    Killed,
    /// A call or a fence could not reach a shard or a quorum.
    Unavailable,
}

pub type History = Seq<Entry>;

/// An order of calls, from the first to the last.
pub type Candidate = Seq<CallId>;
