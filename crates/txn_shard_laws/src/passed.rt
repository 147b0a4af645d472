//! The law of what answered snapshots may have missed.

ghost use Rattle.txn_shard_laws.specs.PassedLaws.{PassedKept, PassedAtFirst, PassedCounted};

/// What a shard has shown of a key at a read time stays right: each prepared writer of the key is above
/// the read time, or its call cannot end before it; and so with each version after the one that was
/// shown. It is so at first, each event keeps it, and so does the count of a step.
pub fn answers_pass_by_rightly_for_ever()
    ensures at_first { PassedAtFirst }
    ensures counted { PassedCounted }
    ensures kept { PassedKept }
{}
