//! How far a line of a transaction or a snapshot has come: one line for each shard of its keys.

use rss_wire::{Holder, Outcome};

/// How far a line has come with its shard.
#[derive(Clone, Copy)]
pub enum LineState {
    /// The request of the phase was sent, and its reply is awaited.
    Awaiting,
    /// The request of the phase was answered.
    Answered,
    /// Something holds the shard's keys: its coordinator was asked how it was decided.
    Inquiring(Holder),
    /// The decision is being passed on to the line's own shard.
    Resolving(Holder, Outcome),
    /// Its coordinator has not decided: the line sleeps until it has.
    Asleep(Holder),
    /// Nothing is awaited any more.
    Dropped,
}
