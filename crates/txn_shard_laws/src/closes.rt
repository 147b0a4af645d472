//! The law of what shards have closed.

ghost use Rattle.txn_shard_laws.specs.ClosedLaws.{ClosedAtFirst, ClosedThroughTicks, ClosedThroughEvents};

/// Before the first step, as each step is counted, and through every event: what an answered snapshot was
/// shown is closed, and so is what an attempt whose guard failed was shown, on each shard where it has given
/// its locks back; who was told so has given them back; and each version is what a committed transaction
/// wrote. An attempt that has given locks back is one of a transaction, whose guard has failed if it is the
/// present one.
pub fn what_is_closed_is_kept()
    ensures at_first { ClosedAtFirst }
    ensures ticks { ClosedThroughTicks }
    ensures events { ClosedThroughEvents }
{}
