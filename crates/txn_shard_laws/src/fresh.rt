//! The law of fresh snapshots. It holds no code: it is the contract of a function that does nothing.

ghost use Rattle.txn_shard_laws.specs.FreshLaws.{FreshKeeps, FreshStart, FreshTicks};

/// A snapshot whose time is known is at or after each transaction that wrote one of its keys and had ended
/// before the snapshot began. It is so at first, each event keeps it, and so does the count of a step.
pub fn snapshots_are_fresh()
    ensures kept { FreshKeeps }
    ensures first { FreshStart }
    ensures ticked { FreshTicks }
{}
