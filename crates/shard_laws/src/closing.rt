//! The laws of shards that requests come to in order, and of what is closed in them.

ghost use Rattle.std.specs.Prelude.{ℕ, ◌≡◌, ◌⊎◌, ◌<◌, ◌≤◌, List, Some, IsTrue};
ghost use Rattle.rss_names.specs.declared.service.Key.{Key};
ghost use Rattle.rss_wire.specs.declared.messages.Request.{Request};
ghost use Rattle.rss_wire.specs.declared.messages.Version.{Version};
ghost use Rattle.rss_tables.specs.Prepared.{PreparedWriter, prepared_of};
ghost use Rattle.rss_tables.specs.ShardRow.{Shard, opening_shard, shard_after};
ghost use Rattle.shard_laws.specs.Served.{IsReached};
ghost use Rattle.shard_laws.specs.Closed.{writes_key};
ghost use Rattle.shard_laws.specs.Snapshots.{ClosesAt};
ghost use Rattle.shard_laws.specs.Orderly.{IsOrderly, IsInOrder};

/// Each prepared attempt writes what it locked, at a time above the newest version of each key that it
/// locked: it is so at first, and stays so where each attempt asks to prepare only writes of keys that it
/// locked to write, and each commit comes at its prepare time or later.
pub fn shards_stay_orderly()
    ensures at_first { (keys : List Key) → IsOrderly (opening_shard keys) }
    ensures kept { (sh : Shard) (latest : ℕ) (r : Request) → IsOrderly sh → IsInOrder sh r →
        IsOrderly (shard_after sh latest r) }
{}

/// What a key shows at a closed time, it shows at it after each request.
pub fn closed_versions_stay()
    ensures { (sh : Shard) (latest : ℕ) (r : Request) → IsOrderly sh → IsInOrder sh r →
        (key : Key) (time : ℕ) (v : Version) → ClosesAt sh key time v → ClosesAt (shard_after sh latest r) key time v }
{}

/// What a closed time shows is not above it, and each prepared writer of the key is above the time. Of two
/// closed times of one key, the later one shows what the earlier one does, or a version above the earlier
/// time. So a version that stands at its own time is shown at every later closed time, or a later one is.
pub fn closed_times_are_in_order()
    ensures upto { (sh : Shard) (key : Key) (time : ℕ) (v : Version) → ClosesAt sh key time v → v.time ≤ time }
    ensures writers { (sh : Shard) (key : Key) (time : ℕ) (v : Version) → ClosesAt sh key time v →
        (p : PreparedWriter) → prepared_of sh.prepared p.attempt ≡ Some p → IsTrue (writes_key p key) →
        time < p.prepare_time }
    ensures order { (sh : Shard) → IsReached sh → (key : Key) (time : ℕ) (v : Version) (t : ℕ) (w : Version) →
        ClosesAt sh key time v → ClosesAt sh key t w → t ≤ time → (t < v.time) ⊎ (w ≡ v) }
{}
