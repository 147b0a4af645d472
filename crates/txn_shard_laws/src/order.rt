//! The laws of orderly shards. They hold no code: each is the contract of a function that does nothing.

ghost use Rattle.txn_shard_laws.specs.OrderLaws.{RequestsKeepOrderly, OrderlyKeeps, OrderlyStart, OrderlyTicks};

/// Where lines, decisions, votes and shards are as they should be, each request that was sent to a shard
/// keeps the shard orderly: it asks to prepare only what is locked, and to commit only at the prepare
/// time or later.
pub fn requests_keep_shards_orderly()
    ensures { RequestsKeepOrderly }
{}

/// Shards are orderly at first and stay so, event by event: who holds locks or is prepared is an attempt
/// with a line there, and who was granted its locks holds what it was shown, or is done with.
pub fn shards_are_kept_orderly()
    ensures kept { OrderlyKeeps }
    ensures first { OrderlyStart }
    ensures ticked { OrderlyTicks }
{}
