//! The laws of a shard's prepared writers, whatever requests it serves in whatever order.

ghost use Rattle.std.specs.Prelude.{ℕ, ◌≡◌, ◌⊎◌, List, Some};
ghost use Rattle.rss_wire.specs.declared.messages.Request.{Request};
ghost use Rattle.rss_tables.specs.Prepared.{PreparedWriter, prepared_of};
ghost use Rattle.rss_tables.specs.ShardRow.{Shard, shard_after};
ghost use Rattle.shard_laws.specs.Served.{served, IsReached};
ghost use Rattle.shard_laws.specs.Entries.{AreApart, prepared_by};
ghost use Rattle.shard_laws.specs.Locked.{HoldsFor};
ghost use Rattle.shard_laws.specs.Changes.{IsSettled, IsPreparedBy};
ghost use Rattle.shard_laws.specs.Later.{IsPreparedOrGone};

/// A prepared attempt holds locks, and its entry names the coordinator that it named when it asked for them.
pub fn prepared_attempts_hold()
    ensures { (sh : Shard) → IsReached sh → (p : PreparedWriter) →
        prepared_of sh.prepared p.attempt ≡ Some p → HoldsFor sh p.attempt p.coordinator }
{}

/// Each prepared attempt has one entry.
pub fn prepared_attempts_have_one_entry()
    ensures { (sh : Shard) → IsReached sh → AreApart prepared_by sh.prepared }
{}

/// An entry that is there after a request was there before, just as it is, or the request prepares its
/// attempt: then its time is above the floor and above what the request has seen, and is not before the
/// end of the reading.
pub fn prepare_times_are_new()
    ensures { (sh : Shard) → IsReached sh → (latest : ℕ) (r : Request) (p : PreparedWriter) →
        prepared_of (shard_after sh latest r).prepared p.attempt ≡ Some p →
        (prepared_of sh.prepared p.attempt ≡ Some p) ⊎ IsPreparedBy sh latest r p }
{}

/// A prepared attempt keeps its entry through a request just as it is, or the request is its commit or
/// its abort, and it is done with. So no older attempt wounds it.
pub fn entries_stay_until_settled()
    ensures { (sh : Shard) → IsReached sh → (latest : ℕ) (r : Request) (p : PreparedWriter) →
        prepared_of sh.prepared p.attempt ≡ Some p →
        (prepared_of (shard_after sh latest r).prepared p.attempt ≡ Some p) ⊎ IsSettled (shard_after sh latest r) r p.attempt }
{}

/// From one state to every later one: a prepared attempt has its entry just as it was, or is done with.
/// So an attempt is prepared once, and the time that it was told is the one that stands.
pub fn attempts_are_prepared_once()
    ensures { (sh : Shard) → IsReached sh → (requests : List (ℕ × Request)) (p : PreparedWriter) →
        prepared_of sh.prepared p.attempt ≡ Some p → IsPreparedOrGone (served sh requests) p }
{}
