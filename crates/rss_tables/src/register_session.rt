//! What a register session does, and how far it has come.

use carstamps::Carstamp;
use causal_context::Dep;
use rss_names::{Key, Seq};
use rss_wire::RegReply;

/// The work of a register session: one round of dependencies, or the rounds of a call.
#[derive(Drop)]
pub enum RegWork {
    /// Stores dependencies at a majority.
    Fix(Seq<Dep>),
    Read(Key),
    Write(Key, u64),
}

/// How a register session ends.
#[derive(Clone, Copy)]
pub enum RegEnd {
    /// The dependencies are held by a majority.
    Fixed,
    /// What was read, and the dependency on it where a majority did not agree.
    Read(RegReply, Option<Dep>),
    /// The stamp with which the value was written.
    Written(Carstamp),
}

/// The round under way.
#[derive(Clone, Copy)]
pub enum RegPhase {
    /// `Fix` was sent; ends when a majority has replied.
    Fixing,
    /// `Ask` was sent; ends the read when a majority has replied.
    Asking,
    /// `Stamp` was sent; goes on to `Storing` when a majority has replied.
    Stamping,
    /// `Store` with this stamp was sent; ends the write when a majority has replied.
    Storing(Carstamp),
    Done(RegEnd),
}
