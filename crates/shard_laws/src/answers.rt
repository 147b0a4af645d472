//! The laws of answered snapshots.

ghost use Rattle.std.specs.Prelude.{ℕ, ◌≡◌, ◌<◌, ◌≤◌, Bool, true, false, List, [], Some, IsTrue};
ghost use Rattle.rss_names.specs.declared.service.Key.{Key};
ghost use Rattle.rss_wire.specs.declared.messages.Request.TheVariants.{Snapshot};
ghost use Rattle.rss_wire.specs.declared.messages.Reply.TheVariants as reply;
ghost use Rattle.rss_wire.specs.declared.messages.Skipped.{Skipped};
ghost use Rattle.rss_wire.specs.declared.messages.Version.{Version};
ghost use Rattle.rss_tables.specs.Lines.{version_in};
ghost use Rattle.rss_tables.specs.Locks.{has_key};
ghost use Rattle.rss_tables.specs.Prepared.{PreparedWriter, prepared_of};
ghost use Rattle.rss_tables.specs.Versions.{version_at, versions_at};
ghost use Rattle.rss_tables.specs.ShardRow.{Shard, shard_after, shard_reply};
ghost use Rattle.shard_laws.specs.Served.{IsReached};
ghost use Rattle.shard_laws.specs.Closed.{EachOf, writes_key};
ghost use Rattle.shard_laws.specs.Snapshots.{IsBefore, ClosesAt};
ghost use Rattle.shard_laws.specs.Orderly.{IsOrderly};
ghost use Rattle.shard_laws.specs.Named.{IsNamed};

/// An answer is fresh: it shows the version of each key at the read time, which is not before any version
/// that is closed up to the read time; and the call of each prepared writer of its keys up to the read
/// time cannot end before the read time.
pub fn answers_are_fresh()
    ensures versions { (sh : Shard) (latest read_time least : ℕ) (keys : List Key) (skip : Bool)
        (versions : List (Key × Version)) (skipped : List Skipped) → IsReached sh →
        shard_reply sh latest (Snapshot read_time least keys skip) ≡ reply.Values versions skipped →
        versions ≡ versions_at sh.store keys read_time }
    ensures shows { (sh : Shard) (read_time : ℕ) → IsReached sh → (key : Key) (t : ℕ) (w : Version) →
        ClosesAt sh key t w → w.time ≡ t → t ≤ read_time → t ≤ (version_at sh.store key read_time).time }
    ensures skips { (sh : Shard) (latest read_time least : ℕ) (keys : List Key)
        (versions : List (Key × Version)) (skipped : List Skipped) → IsReached sh →
        shard_reply sh latest (Snapshot read_time least keys true) ≡ reply.Values versions skipped →
        (key : Key) → IsTrue (has_key keys key) → (p : PreparedWriter) →
        prepared_of sh.prepared p.attempt ≡ Some p → IsTrue (writes_key p key) →
        p.prepare_time ≤ read_time → read_time < p.earliest_end }
{}

/// An answer closes what it shows for each of its keys: at each time up to the read time that is before
/// all that it names, if the version is not above the time.
pub fn answers_close_what_they_show_for_keys()
    ensures { (sh : Shard) (latest read_time least : ℕ) (keys : List Key) (skip : Bool)
        (versions : List (Key × Version)) (skipped : List Skipped) → IsOrderly sh →
        shard_reply sh latest (Snapshot read_time least keys skip) ≡ reply.Values versions skipped →
        (key : Key) (v : Version) (time : ℕ) → IsTrue (has_key keys key) → version_in versions key ≡ Some v →
        time ≤ read_time → EachOf (IsBefore time) skipped → v.time ≤ time →
        ClosesAt (shard_after sh latest (Snapshot read_time least keys skip)) key time v }
{}

/// Whom an answer names is prepared, at the time that is named, and its call cannot end before the read
/// time. A snapshot that may pass nobody by names nobody.
pub fn answers_name_the_prepared()
    ensures named { (sh : Shard) (latest read_time least : ℕ) (keys : List Key) (skip : Bool)
        (versions : List (Key × Version)) (skipped : List Skipped) → IsReached sh →
        shard_reply sh latest (Snapshot read_time least keys skip) ≡ reply.Values versions skipped →
        EachOf (IsNamed sh read_time) skipped }
    ensures nobody { (sh : Shard) (latest read_time least : ℕ) (keys : List Key)
        (versions : List (Key × Version)) (skipped : List Skipped) → IsReached sh →
        shard_reply sh latest (Snapshot read_time least keys false) ≡ reply.Values versions skipped →
        skipped ≡ [] }
{}
