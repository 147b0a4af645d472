//! The laws of a shard's floor: the greatest time at which it was read or written.

ghost use Rattle.std.specs.Prelude.{ℕ, ◌≡◌, ◌≤◌, Bool, List, Some};
ghost use Rattle.rss_names.specs.declared.service.Key.{Key};
ghost use Rattle.rss_wire.specs.declared.messages.Request.{Request};
ghost use Rattle.rss_wire.specs.declared.messages.Request.TheVariants.{Snapshot};
ghost use Rattle.rss_wire.specs.declared.messages.Reply.TheVariants as reply;
ghost use Rattle.rss_wire.specs.declared.messages.Skipped.{Skipped};
ghost use Rattle.rss_wire.specs.declared.messages.Version.{Version};
ghost use Rattle.rss_tables.specs.Prepared.{PreparedWriter, prepared_of};
ghost use Rattle.rss_tables.specs.ShardRow.{Shard, shard_after, shard_reply};
ghost use Rattle.shard_laws.specs.Served.{served, IsReached};
ghost use Rattle.shard_laws.specs.Later.{WasThereOrIsAbove};

/// No request lowers the floor of a shard.
pub fn the_floor_never_falls()
    ensures { (sh : Shard) (requests : List (ℕ × Request)) → sh.floor ≤ (served sh requests).floor }
{}

/// A snapshot that is answered raises the floor to the time at which it reads.
pub fn answered_snapshots_raise_the_floor()
    ensures { (sh : Shard) (latest read_time least : ℕ) (keys : List Key) (skip : Bool)
        (versions : List (Key × Version)) (skipped : List Skipped) →
        shard_reply sh latest (Snapshot read_time least keys skip) ≡ reply.Values versions skipped →
        read_time ≤ (shard_after sh latest (Snapshot read_time least keys skip)).floor }
{}

/// From one state to every later one: an entry that is prepared in the later one was prepared in the
/// first, or its time is above the floor of the first. So what is prepared after a snapshot was answered
/// has a time above the snapshot's.
pub fn later_prepare_times_are_above_the_floor()
    ensures { (sh : Shard) → IsReached sh → (requests : List (ℕ × Request)) (p : PreparedWriter) →
        prepared_of (served sh requests).prepared p.attempt ≡ Some p → WasThereOrIsAbove sh p }
{}
