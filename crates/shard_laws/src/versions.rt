//! The laws of the versions that a shard keeps: that they rise, where new ones come from, and what is closed.

ghost use Rattle.std.specs.Prelude.{ℕ, ◌≡◌, ◌≤◌, Bool, List, IsTrue};
ghost use Rattle.rss_names.specs.declared.service.Key.{Key};
ghost use Rattle.rss_wire.specs.declared.messages.Holder.{Holder};
ghost use Rattle.rss_wire.specs.declared.messages.Request.{Request};
ghost use Rattle.rss_wire.specs.declared.messages.Request.TheVariants.{Snapshot};
ghost use Rattle.rss_wire.specs.declared.messages.Reply.TheVariants as reply;
ghost use Rattle.rss_wire.specs.declared.messages.Skipped.{Skipped};
ghost use Rattle.rss_wire.specs.declared.messages.Version.{Version};
ghost use Rattle.rss_tables.specs.Locks.{has_key};
ghost use Rattle.rss_tables.specs.Versions.{versions_of, version_at};
ghost use Rattle.rss_tables.specs.ShardRow.{Shard, shard_after, shard_reply};
ghost use Rattle.shard_laws.specs.Served.{served, IsReached};
ghost use Rattle.shard_laws.specs.Closed.{EachOf, IsAtMost, AreRising, AreTimely, GrowLater, IsClosed};
ghost use Rattle.shard_laws.specs.Snapshots.{IsAnswered, IsBlocked, IsBefore, ClosesAt};

/// The times of a key's versions rise strictly, and none is above the floor.
pub fn versions_rise_up_to_the_floor()
    ensures rise { (sh : Shard) → IsReached sh → (key : Key) → AreRising (versions_of sh.store key) }
    ensures up_to_the_floor { (sh : Shard) → IsReached sh → (key : Key) →
        EachOf (IsAtMost sh.floor) (versions_of sh.store key) }
{}

/// From one state to every later one, where each commit of a prepared attempt comes at its prepare time
/// or later: the versions of a key only grow, and each new one has a time above the floor of the first
/// state, or was written by an attempt that was prepared in it, at its prepare time or later. So what a
/// snapshot did not see at or below its time comes from the attempts that it passed by.
pub fn versions_come_from_prepared_attempts()
    ensures { (sh : Shard) → IsReached sh → (requests : List (ℕ × Request)) → AreTimely sh requests →
        (key : Key) → GrowLater sh (served sh requests) key }
{}

/// Closed stays closed: where a shard was read or written at a time or later, and each prepared writer
/// of a key is above that time, the same is so in every later state, whatever is asked in between.
pub fn closed_times_stay_closed()
    ensures { (sh : Shard) → IsReached sh → (requests : List (ℕ × Request)) (key : Key) (time : ℕ) →
        IsClosed sh key time → IsClosed (served sh requests) key time }
{}

/// The version of a key at a closed time never changes, where each commit of a prepared attempt comes at
/// its prepare time or later.
pub fn versions_at_closed_times_stay()
    ensures { (sh : Shard) → IsReached sh → (requests : List (ℕ × Request)) → AreTimely sh requests →
        (key : Key) (time : ℕ) → IsClosed sh key time →
        version_at (served sh requests).store key time ≡ version_at sh.store key time }
{}

/// A snapshot that is answered shows the version of each key at its read time. Each prepared writer of
/// its keys up to that time is passed by and named: it was prepared above what the reader has seen, and
/// its call cannot end before the read time. Nobody else is named.
pub fn answers_pass_by_rightly()
    ensures { (sh : Shard) → IsReached sh → (latest read_time least : ℕ) (keys : List Key) (skip : Bool)
        (versions : List (Key × Version)) (skipped : List Skipped) →
        shard_reply sh latest (Snapshot read_time least keys skip) ≡ reply.Values versions skipped →
        IsAnswered sh read_time least keys skip versions skipped }
{}

/// A snapshot that is blocked is told of one prepared attempt at least, and only of such that write a
/// key that it asks for, at its read time or before.
pub fn blocked_snapshots_are_told_who_blocks()
    ensures { (sh : Shard) → IsReached sh → (latest read_time least : ℕ) (keys : List Key) (skip : Bool)
        (holders : List Holder) →
        shard_reply sh latest (Snapshot read_time least keys skip) ≡ reply.Blocked holders →
        IsBlocked sh keys read_time holders }
{}

/// An answer closes what it shows: each of its keys at each time up to the read time that is before all
/// that were passed by, if the version shown is not above it. The key shows that version at that time,
/// and so it stays.
pub fn answers_close_what_they_show()
    ensures { (sh : Shard) → IsReached sh → (latest read_time least : ℕ) (keys : List Key) (skip : Bool)
        (versions : List (Key × Version)) (skipped : List Skipped) →
        shard_reply sh latest (Snapshot read_time least keys skip) ≡ reply.Values versions skipped →
        (key : Key) (time : ℕ) → IsTrue (has_key keys key) → time ≤ read_time → EachOf (IsBefore time) skipped →
        (version_at sh.store key read_time).time ≤ time →
        ClosesAt (shard_after sh latest (Snapshot read_time least keys skip)) key time
        (version_at sh.store key read_time) }
{}
