//! The laws of what attempts that hold locks were shown, and of prepared attempts.

ghost use Rattle.std.specs.Prelude.{ℕ, ◌≡◌, ◌⊎◌, List, Some};
ghost use Rattle.rss_names.specs.declared.attempt.Attempt.{Attempt};
ghost use Rattle.rss_names.specs.declared.service.Key.{Key};
ghost use Rattle.rss_wire.specs.declared.messages.Request.{Request};
ghost use Rattle.rss_wire.specs.declared.messages.Request.TheVariants.{Lock, Commit, Abort};
ghost use Rattle.rss_wire.specs.declared.messages.Reply.TheVariants as reply;
ghost use Rattle.rss_wire.specs.declared.messages.Version.{Version};
ghost use Rattle.rss_tables.specs.Locks.{LockHolder};
ghost use Rattle.rss_tables.specs.Prepared.{PreparedWriter, prepared_of};
ghost use Rattle.rss_tables.specs.Versions.{newest_of};
ghost use Rattle.rss_tables.specs.ShardRow.{Shard, shard_after, shard_reply};
ghost use Rattle.shard_laws.specs.Served.{IsReached};
ghost use Rattle.shard_laws.specs.Entries.{holder_of};
ghost use Rattle.shard_laws.specs.Locked.{IsGone};
ghost use Rattle.shard_laws.specs.Orderly.{IsOrderly, IsInOrder, HoldsShown};

/// An attempt that is told that its locks are granted holds locks then, and is shown the newest versions
/// of that moment. Who holds locks held them before a request, or asks for just these with it.
pub fn granted_attempts_hold_what_they_are_shown()
    ensures shown { (sh : Shard) (latest : ℕ) (a : Attempt) (coordinator : ℕ) (reads writes : List Key)
        (shown : List (Key × Version)) → IsReached sh →
        shard_reply sh latest (Lock a coordinator reads writes) ≡ reply.Granted shown →
        (h : LockHolder) × ((holder_of (shard_after sh latest (Lock a coordinator reads writes)).locks.holders a ≡ Some h)
        × (shown ≡ newest_of (shard_after sh latest (Lock a coordinator reads writes)).store reads)) }
    ensures asked { (sh : Shard) (latest : ℕ) (r : Request) → IsReached sh → (a : Attempt) (h : LockHolder) →
        holder_of (shard_after sh latest r).locks.holders a ≡ Some h →
        (holder_of sh.locks.holders a ≡ Some h) ⊎ (r ≡ Lock a h.coordinator h.reads h.writes) }
{}

/// An attempt that holds locks holds on to them through a request, and what it was shown is the newest of
/// what it reads still; or it is done with.
pub fn shown_versions_stay()
    ensures { (sh : Shard) (latest : ℕ) (r : Request) → IsOrderly sh → IsInOrder sh r →
        (a : Attempt) (reads writes : List Key) (shown : List (Key × Version)) →
        HoldsShown sh a reads writes shown →
        HoldsShown (shard_after sh latest r) a reads writes shown ⊎ IsGone (shard_after sh latest r) a }
{}

/// A prepared attempt keeps its entry through a request, or the request is its commit or its abort, and it
/// is done with.
pub fn prepared_attempts_stay_until_settled()
    ensures { (sh : Shard) (latest : ℕ) (r : Request) → IsReached sh → (a : Attempt) (p : PreparedWriter) →
        prepared_of sh.prepared a ≡ Some p →
        (prepared_of (shard_after sh latest r).prepared a ≡ Some p)
        ⊎ (IsGone (shard_after sh latest r) a × (((time : ℕ) × (r ≡ Commit a time)) ⊎ (r ≡ Abort a))) }
{}
