//! What an owner of messages does, and what it has under way.

use rss_model::Op;
use rss_names::{Attempt, Seq, ShardId};

/// What an owner does: a call, a fence statement, or the stub of a stage that died, which may have an
/// attempt to settle at its shards.
#[derive(Drop)]
pub enum OwnerKind {
    Calling(Op),
    Fencing,
    Stubbing(Option<(Attempt, Seq<ShardId>)>),
}

/// What an owner has under way with replicas or shards, over the sessions of register calls `R`, of
/// transactions `T` and of snapshots `S`.
#[derive(Drop)]
pub enum Session<R, T, S> {
    /// Nothing.
    Idle,
    /// A round that stores dependencies: that of a fence, or the one before a call's own first round.
    Fixing(R),
    /// The rounds of a register call.
    Register(R),
    Transaction(T),
    Snapshot(S),
    /// A stub has its coordinator decide this attempt, which held locks at these shards.
    Settling(Attempt, Seq<ShardId>),
}
