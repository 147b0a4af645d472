//! The law of what shards have told of attempts that are prepared.

ghost use Rattle.txn_shard_laws.specs.VoteLaws.{VotesKept, VotesAtFirst, VotesCounted};

/// An attempt that a shard told that it is prepared is prepared there still, at the time that was told;
/// or it is aborted; or it is committed, at that time or later, and the shard has applied its writes. It
/// is so at first, each event keeps it, and so does the count of a step.
pub fn votes_are_kept()
    ensures at_first { VotesAtFirst }
    ensures counted { VotesCounted }
    ensures kept { VotesKept }
{}
