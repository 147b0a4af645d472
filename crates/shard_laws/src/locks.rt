//! The laws of a shard's locks, whatever requests it serves in whatever order.

ghost use Rattle.std.specs.Prelude.{ℕ, ◌≡◌, ◌⊎◌, List, is_some, Some, None, IsTrue, IsFalse};
ghost use Rattle.rss_names.specs.declared.attempt.Attempt.{Attempt};
ghost use Rattle.rss_names.specs.declared.service.Key.{Key};
ghost use Rattle.rss_wire.specs.declared.messages.Holder.{Holder};
ghost use Rattle.rss_wire.specs.declared.messages.Request.{Request};
ghost use Rattle.rss_wire.specs.declared.messages.Request.TheVariants.{Lock};
ghost use Rattle.rss_wire.specs.declared.messages.Reply.TheVariants as reply;
ghost use Rattle.rss_wire.specs.declared.messages.Version.{Version};
ghost use Rattle.rss_tables.specs.Attempts.{same_attempt, has_attempt};
ghost use Rattle.rss_tables.specs.Locks.{LockHolder, is_tombstoned};
ghost use Rattle.rss_tables.specs.Prepared.{prepared_of};
ghost use Rattle.rss_tables.specs.ShardRow.{Shard, shard_after, shard_reply};
ghost use Rattle.shard_laws.specs.Served.{served, IsReached};
ghost use Rattle.shard_laws.specs.Entries.{AreApart, held_by, holder_of};
ghost use Rattle.shard_laws.specs.Locked.{AreExcluded, IsGone};
ghost use Rattle.shard_laws.specs.Changes.{KeepsOrLoses, IsGranted};
ghost use Rattle.shard_laws.specs.Replies.{WaitsFor, IsShown};
ghost use Rattle.shard_laws.specs.Sample.{early_attempt, after_early_commit};
ghost use Rattle.shard_laws.specs.Later.{HoldsOrIsGone};

/// Locks exclude: of two attempts that hold locks, neither writes a key that the other reads or writes.
/// So two that hold one key only read it. This keeps two writers of a key from being prepared at once,
/// and a writer away from what another one was shown.
pub fn locks_exclude()
    ensures { (sh : Shard) → IsReached sh → (h g : LockHolder) →
        holder_of sh.locks.holders h.attempt ≡ Some h → holder_of sh.locks.holders g.attempt ≡ Some g →
        IsFalse (same_attempt h.attempt g.attempt) → AreExcluded h g }
{}

/// Each attempt holds its locks once.
pub fn each_attempt_holds_once()
    ensures { (sh : Shard) → IsReached sh → AreApart held_by sh.locks.holders }
{}

/// Who holds locks after a request held just these before, or is granted them by the request: it asks
/// for just these, and its attempt neither held any nor was tombstoned.
pub fn locks_are_granted_where_asked_for()
    ensures { (sh : Shard) → IsReached sh → (latest : ℕ) (r : Request) (h : LockHolder) →
        holder_of (shard_after sh latest r).locks.holders h.attempt ≡ Some h →
        (holder_of sh.locks.holders h.attempt ≡ Some h) ⊎ IsGranted sh r h }
{}

/// Who holds locks keeps them through a request just as they are, or loses all of them: to an older
/// attempt that asks for locks in its way, and then it was not prepared, or by its own commit, abort or
/// release. Who loses them is tombstoned.
pub fn locks_are_lost_to_older_attempts_or_given_back()
    ensures { (sh : Shard) → IsReached sh → (latest : ℕ) (r : Request) (h : LockHolder) →
        holder_of sh.locks.holders h.attempt ≡ Some h → KeepsOrLoses sh (shard_after sh latest r) r h }
{}

/// From one state to every later one: who held locks holds just the same ones, or is tombstoned and
/// holds none. So an attempt that is granted locks twice held them all the time between.
pub fn locks_are_held_without_a_break()
    ensures { (sh : Shard) → IsReached sh → (requests : List (ℕ × Request)) (h : LockHolder) →
        holder_of sh.locks.holders h.attempt ≡ Some h → HoldsOrIsGone (served sh requests) h }
{}

/// Tombstones are for ever.
pub fn tombstones_stay()
    ensures { (sh : Shard) (requests : List (ℕ × Request)) (a : Attempt) →
        IsTrue (is_tombstoned sh.locks a) → IsTrue (is_tombstoned (served sh requests).locks a) }
{}

/// A tombstoned attempt that holds no locks is done with: it is not prepared, and neither holds locks
/// nor is prepared ever again. One that is told that it is committed while it holds and is not prepared
/// is tombstoned and holds on, and can still be prepared. So a tombstone alone does not say this.
pub fn tombstoned_attempts_without_locks_are_gone()
    ensures now { (sh : Shard) → IsReached sh → (a : Attempt) →
        IsTrue (is_tombstoned sh.locks a) → holder_of sh.locks.holders a ≡ None → IsGone sh a }
    ensures tombstones_alone_are_less { IsTrue (is_tombstoned after_early_commit.locks early_attempt)
        × IsTrue (is_some (prepared_of after_early_commit.prepared early_attempt)) }
    ensures ever_after { (sh : Shard) (requests : List (ℕ × Request)) (a : Attempt) →
        IsGone sh a → IsGone (served sh requests) a }
{}

/// An attempt that is told to wait is told of exactly those that are left in its way, of one at least.
/// Each of them is older, or prepared.
pub fn waiting_attempts_are_told_who_is_in_their_way()
    ensures { (sh : Shard) → IsReached sh → (latest : ℕ) (attempt : Attempt) (coordinator : ℕ)
        (reads writes : List Key) (holders : List Holder) →
        shard_reply sh latest (Lock attempt coordinator reads writes) ≡ reply.Wait holders →
        WaitsFor sh (shard_after sh latest (Lock attempt coordinator reads writes)) attempt reads writes holders }
{}

/// An attempt that is told that its locks are granted holds locks, and is shown the newest version of
/// each key that it asks to read.
pub fn granted_attempts_are_shown_the_newest_versions()
    ensures { (sh : Shard) (latest : ℕ) (attempt : Attempt) (coordinator : ℕ)
        (reads writes : List Key) (shown : List (Key × Version)) →
        shard_reply sh latest (Lock attempt coordinator reads writes) ≡ reply.Granted shown →
        IsShown sh (shard_after sh latest (Lock attempt coordinator reads writes)) attempt reads shown }
{}

/// An attempt that has released its locks is done with: it is tombstoned, holds none, and is not prepared.
pub fn released_attempts_are_gone()
    ensures { (sh : Shard) → IsReached sh → (a : Attempt) → IsTrue (has_attempt sh.released a) → IsGone sh a }
{}
