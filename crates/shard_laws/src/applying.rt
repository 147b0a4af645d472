//! The laws of what commits and releases close.

ghost use Rattle.std.specs.Prelude.{ℕ, ◌≡◌, ◌⊎◌, ◌≤◌, Bool, true, List, Some, IsTrue};
ghost use Rattle.rss_names.specs.declared.attempt.Attempt.{Attempt};
ghost use Rattle.rss_names.specs.declared.service.Key.{Key};
ghost use Rattle.rss_wire.specs.declared.messages.Request.{Request};
ghost use Rattle.rss_wire.specs.declared.messages.Request.TheVariants.{Commit, Release};
ghost use Rattle.rss_wire.specs.declared.messages.Reply.TheVariants as reply;
ghost use Rattle.rss_wire.specs.declared.messages.Version.{Version};
ghost use Rattle.rss_tables.specs.Attempts.{has_attempt};
ghost use Rattle.rss_tables.specs.Lines.{version_in};
ghost use Rattle.rss_tables.specs.Locks.{has_key};
ghost use Rattle.rss_tables.specs.Prepared.{PreparedWriter, prepared_of};
ghost use Rattle.rss_tables.specs.ShardRow.{Shard, can_release, shard_after, shard_reply};
ghost use Rattle.shard_laws.specs.Snapshots.{ClosesAt};
ghost use Rattle.shard_laws.specs.Orderly.{IsOrderly, IsInOrder, HoldsShown};
ghost use Rattle.shard_laws.specs.Applied.{IsApplied};

/// The commit of a prepared attempt at its prepare time or later: what it was shown stands right below
/// that time, and at it what it did not write; and what it wrote stands at that time, with its name. So it
/// stays.
pub fn commits_apply()
    ensures applies { (sh : Shard) (latest time : ℕ) (p : PreparedWriter) (reads writes : List Key)
        (shown : List (Key × Version)) → IsOrderly sh → prepared_of sh.prepared p.attempt ≡ Some p →
        HoldsShown sh p.attempt reads writes shown → p.prepare_time ≤ time →
        IsApplied (shard_after sh latest (Commit p.attempt time)) p.attempt.call time reads shown p.writes }
    ensures stays { (sh : Shard) (latest : ℕ) (r : Request) → IsOrderly sh → IsInOrder sh r →
        (call time : ℕ) (reads : List Key) (shown : List (Key × Version)) (writes : List (Key × ℕ)) →
        IsApplied sh call time reads shown writes → IsApplied (shard_after sh latest r) call time reads shown writes }
{}

/// A release at a time closes what the attempt was shown at that time, if it is not above it. Who has
/// released was told so, stays released, and could release when it asked.
pub fn releases_close_what_was_shown()
    ensures closes { (sh : Shard) (latest time : ℕ) (last : Bool) (a : Attempt) (reads writes : List Key)
        (shown : List (Key × Version)) → IsOrderly sh → HoldsShown sh a reads writes shown →
        IsTrue (can_release sh a) → (key : Key) (v : Version) → IsTrue (has_key reads key) →
        version_in shown key ≡ Some v → v.time ≤ time →
        ClosesAt (shard_after sh latest (Release a time last)) key time v }
    ensures asked { (sh : Shard) (latest : ℕ) (r : Request) (a : Attempt) →
        has_attempt (shard_after sh latest r).released a ≡ true →
        (has_attempt sh.released a ≡ true)
        ⊎ ((time : ℕ) × (last : Bool) × (r ≡ Release a time last) × IsTrue (can_release sh a)) }
    ensures stays { (sh : Shard) (latest : ℕ) (r : Request) (a : Attempt) →
        has_attempt sh.released a ≡ true → has_attempt (shard_after sh latest r).released a ≡ true }
    ensures told { (sh : Shard) (latest time : ℕ) (last : Bool) (a : Attempt) →
        shard_reply sh latest (Release a time last) ≡ reply.Released →
        has_attempt (shard_after sh latest (Release a time last)).released a ≡ true }
{}
