//! The laws of the decisions that a coordinator keeps.

ghost use Rattle.std.specs.Prelude.{ℕ, ◌≡◌, ◌⊎◌, List, Some};
ghost use Rattle.rss_names.specs.declared.attempt.Attempt.{Attempt};
ghost use Rattle.rss_wire.specs.declared.messages.Outcome.{Outcome};
ghost use Rattle.rss_wire.specs.declared.messages.Request.{Request};
ghost use Rattle.rss_tables.specs.ShardRow.{Shard, decision_in, shard_after};
ghost use Rattle.shard_laws.specs.Served.{served};
ghost use Rattle.shard_laws.specs.Changes.{IsDecidedBy};

/// The first decision of an attempt is kept for ever.
pub fn decisions_stay()
    ensures { (sh : Shard) (requests : List (ℕ × Request)) (a : Attempt) (o : Outcome) →
        decision_in sh.decisions a ≡ Some o → decision_in (served sh requests).decisions a ≡ Some o }
{}

/// A decision that is kept after a request was kept before, or the request asks for it. A commit is at
/// the time asked for or at the end of the reading, whichever is later; an abort is asked for, or comes
/// with the attempt's last release.
pub fn decisions_are_asked_for()
    ensures { (sh : Shard) (latest : ℕ) (r : Request) (a : Attempt) (o : Outcome) →
        decision_in (shard_after sh latest r).decisions a ≡ Some o →
        (decision_in sh.decisions a ≡ Some o) ⊎ IsDecidedBy latest r a o }
{}
