//! The laws of targets. They hold no code: each is the contract of a function that does nothing.

ghost use Rattle.target_laws.specs.Laws.{ShardsAreTheFiles, TargetsHavePlaces};

/// In every run each message with a shard is with one of the file; and every coordinator that a lock, a
/// prepared attempt, a request, a reply or a line names is one.
pub fn shards_are_the_files()
    ensures { ShardsAreTheFiles }
{}

/// So every message with a shard is with one of sixteen, whose losses an owner counts at a place of
/// their own.
pub fn targets_have_places()
    ensures { TargetsHavePlaces }
{}
