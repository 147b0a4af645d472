//! The laws of a shard where prepared attempts write only what they locked, and what its replies tell.

ghost use Rattle.std.specs.Prelude.{ℕ, ◌≡◌, Bool, List, [], ◌∷◌, ◌++◌, Some, IsTrue, IsFalse};
ghost use Rattle.rss_names.specs.declared.attempt.Attempt.{Attempt};
ghost use Rattle.rss_names.specs.declared.service.Key.{Key};
ghost use Rattle.rss_wire.specs.declared.messages.Outcome.{Outcome};
ghost use Rattle.rss_wire.specs.declared.messages.Request.{Request};
ghost use Rattle.rss_wire.specs.declared.messages.Request.TheVariants.{Prepare, Decide, Commit, Inquire, Release};
ghost use Rattle.rss_wire.specs.declared.messages.Reply.TheVariants as reply;
ghost use Rattle.rss_tables.specs.Locks.{LockHolder};
ghost use Rattle.rss_tables.specs.Prepared.{PreparedWriter, prepared_of};
ghost use Rattle.rss_tables.specs.Versions.{versions_of};
ghost use Rattle.rss_tables.specs.ShardRow.{Shard, opening_shard, can_release, decision_in, shard_after, shard_reply};
ghost use Rattle.shard_laws.specs.Served.{served, IsReached};
ghost use Rattle.shard_laws.specs.Entries.{holder_of};
ghost use Rattle.shard_laws.specs.Closed.{EachOf, writes_key, IsClosed};
ghost use Rattle.shard_laws.specs.Committed.{written_value, keeps_key, IsBelow, version_by};
ghost use Rattle.shard_laws.specs.Fitting.{locks_key, WritesAreLocked, IsFitting, AreFitting, IsPreparedAt};

/// Where each attempt asks to prepare only writes of keys that it locked to write, prepared attempts
/// write only such keys: it is so at first, and a request that asks so keeps it.
pub fn prepared_writes_stay_locked()
    ensures at_first { (keys : List Key) → WritesAreLocked (opening_shard keys) }
    ensures kept { (sh : Shard) → IsReached sh → (latest : ℕ) (r : Request) →
        WritesAreLocked sh → IsFitting sh r → WritesAreLocked (shard_after sh latest r) }
{}

/// What an attempt locked does not change while it holds: where each attempt asks to prepare only writes
/// of keys that it locked to write, and an attempt holds its locks in one state and in a later one, each
/// key that it locked has the same versions in both. So what it was shown is the newest until it commits.
pub fn locked_versions_stay()
    ensures { (sh : Shard) → IsReached sh → WritesAreLocked sh →
        (requests : List (ℕ × Request)) → AreFitting sh requests → (h : LockHolder) →
        holder_of sh.locks.holders h.attempt ≡ Some h →
        holder_of (served sh requests).locks.holders h.attempt ≡ Some h →
        (key : Key) → IsTrue (locks_key h key) →
        versions_of (served sh requests).store key ≡ versions_of sh.store key }
{}

/// An attempt that is told that it is prepared at a time is prepared at it.
pub fn prepared_replies_are_true()
    ensures { (sh : Shard) (latest : ℕ) (attempt : Attempt) (least earliest_end : ℕ)
        (writes : List (Key × ℕ)) (time : ℕ) →
        shard_reply sh latest (Prepare attempt least earliest_end writes) ≡ reply.Prepared time →
        IsPreparedAt (shard_after sh latest (Prepare attempt least earliest_end writes)) attempt time }
{}

/// A decision that a coordinator tells is the one that it keeps.
pub fn told_decisions_are_kept()
    ensures decided { (sh : Shard) (latest : ℕ) (attempt : Attempt) (commit : Bool) (time : ℕ) (outcome : Outcome) →
        shard_reply sh latest (Decide attempt commit time) ≡ reply.Decided outcome →
        decision_in (shard_after sh latest (Decide attempt commit time)).decisions attempt ≡ Some outcome }
    ensures asked { (sh : Shard) (latest : ℕ) (attempt : Attempt) (outcome : Outcome) →
        shard_reply sh latest (Inquire attempt) ≡ reply.Outcome outcome →
        decision_in sh.decisions attempt ≡ Some outcome }
{}

/// The commit of a prepared attempt at a time above all versions of a key that it writes makes its first
/// value for the key the newest version. A key that it does not write keeps its versions.
pub fn commits_write_what_was_prepared()
    ensures writes { (sh : Shard) (latest time : ℕ) (p : PreparedWriter) →
        prepared_of sh.prepared p.attempt ≡ Some p → (key : Key) (value : ℕ) →
        written_value p.writes key ≡ Some value → IsTrue (keeps_key sh.store key) →
        EachOf (IsBelow time) (versions_of sh.store key) →
        versions_of (shard_after sh latest (Commit p.attempt time)).store key
        ≡ versions_of sh.store key ++ version_by p time value ∷ [] }
    ensures leaves { (sh : Shard) (latest time : ℕ) (p : PreparedWriter) →
        prepared_of sh.prepared p.attempt ≡ Some p → (key : Key) → IsFalse (writes_key p key) →
        versions_of (shard_after sh latest (Commit p.attempt time)).store key ≡ versions_of sh.store key }
{}

/// The keys of a shard are always the same.
pub fn keys_stay()
    ensures { (sh : Shard) (requests : List (ℕ × Request)) (key : Key) →
        keeps_key (served sh requests).store key ≡ keeps_key sh.store key }
{}

/// An attempt that gives its locks back at a time closes each key that it locked at that time, where
/// prepared attempts write only what they locked. So what it was shown stays, if it is not above the time.
pub fn releases_close_what_was_locked()
    ensures { (sh : Shard) → IsReached sh → WritesAreLocked sh → (h : LockHolder) →
        holder_of sh.locks.holders h.attempt ≡ Some h → IsTrue (can_release sh h.attempt) →
        (latest time : ℕ) (last : Bool) (key : Key) → IsTrue (locks_key h key) →
        IsClosed (shard_after sh latest (Release h.attempt time last)) key time }
{}
