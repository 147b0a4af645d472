//! The laws of what a stage has seen. They hold no code: each is the contract of a function that
//! does nothing.

ghost use Rattle.std.specs.Prelude.{◌≡◌, ℕ, ◌≤◌, Option, false, []};
ghost use Rattle.rss_names.specs.declared.service.ServiceId.{ServiceId as Service};
ghost use Rattle.rss_names.specs.declared.service.ServiceId.TheVariants.{Txn, Reg};
ghost use Rattle.causal_context.specs.declared.dep.Dep.{Dep as Dependency};
ghost use Rattle.causal_context.specs.Services.{IsService, has_service};
ghost use Rattle.causal_context.specs.LeastTimes.{least_of};
ghost use Rattle.causal_context.specs.Deps.{deps_of};
ghost use Rattle.causal_context.specs.Seen.{Seen, nothing_seen, context_joined, after_txn, after_read, after_write, after_fence, fenced_outside, entered, deps_cleared};
ghost use Rattle.causal_context.specs.Forms.{IsSeen, StampsAgree};

/// It does not matter which of two contexts is joined to the other, where equal stamps on one
/// register carry equal dependencies.
pub fn join_is_commutative()
    ensures { (a b : Seen) → IsSeen a → IsSeen b → StampsAgree a.deps b.deps → context_joined a b ≡ context_joined b a }
{}

/// It does not matter which two of three contexts are joined first.
pub fn join_is_associative()
    ensures { (a b c : Seen) → IsSeen a → IsSeen b → IsSeen c → context_joined (context_joined a b) c ≡ context_joined a (context_joined b c) }
{}

/// A context joined with itself stays the same.
pub fn join_is_idempotent()
    ensures { (a : Seen) → IsSeen a → context_joined a a ≡ a }
{}

/// A context joined with one that has seen nothing stays the same.
pub fn nothing_adds_nothing()
    ensures right { (a : Seen) → context_joined a nothing_seen ≡ a }
    ensures left { (a : Seen) → IsSeen a → context_joined nothing_seen a ≡ a }
{}

/// A fence empties what it fences: the service is not used last, and no dependency on a register of
/// it is left.
pub fn fences_empty()
    ensures last { (c : Seen) (id : Service) → has_service (after_fence c id).last.services id ≡ false }
    ensures deps { (c : Seen) (number : ℕ) → deps_of (Reg number) (after_fence c (Reg number)).deps ≡ [] }
{}

/// Entry raises the least time of a transaction service to at least the reading given.
pub fn entry_raises()
    ensures { (c : Seen) (number latest : ℕ) → latest ≤ least_of (entered c (Txn number) latest).least (Txn number) }
{}

/// No least time falls by a join or an entry.
pub fn least_times_never_fall()
    ensures entry { (c : Seen) (id : Service) (latest : ℕ) (other : Service) → least_of c.least other ≤ least_of (entered c id latest).least other }
    ensures first { (a b : Seen) (id : Service) → least_of a.least id ≤ least_of (context_joined a b).least id }
    ensures second { (a b : Seen) (number : ℕ) → least_of b.least (Txn number) ≤ least_of (context_joined a b).least (Txn number) }
{}

/// Least times and services stay in the order of services, dependencies by ascending index.
pub fn orders_are_kept()
    ensures nothing { IsSeen nothing_seen }
    ensures join { (a b : Seen) → IsSeen a → IsSeen b → IsSeen (context_joined a b) }
    ensures txn { (c : Seen) (id : Service) (time : ℕ) → IsSeen c → IsService id → IsSeen (after_txn c id time) }
    ensures read { (c : Seen) (id : Service) (dep : Option Dependency) → IsSeen c → IsService id → IsSeen (after_read c id dep) }
    ensures write { (c : Seen) (id : Service) → IsSeen c → IsService id → IsSeen (after_write c id) }
    ensures fence { (c : Seen) (id : Service) → IsSeen c → IsSeen (after_fence c id) }
    ensures outside { (c : Seen) → IsSeen c → IsSeen (fenced_outside c) }
    ensures entry { (c : Seen) (id : Service) (latest : ℕ) → IsSeen c → IsService id → IsSeen (entered c id latest) }
    ensures cleared { (c : Seen) → IsSeen c → IsSeen (deps_cleared c) }
{}
