//! The laws of works: when the work of a service ends, each call of the service behind the context
//! has come. They hold no code: each is the contract of a function that does nothing.

ghost use Rattle.std.specs.Prelude.{◌≡◌, ℕ, ◌≤◌, Bool, true, [], All};
ghost use Rattle.rss_names.specs.declared.service.ServiceId.TheVariants.{Txn, Reg};
ghost use Rattle.causal_context.specs.LeastTimes.{least_of};
ghost use Rattle.causal_context.specs.Deps.{deps_of};
ghost use Rattle.causal_context.specs.Seen.{Seen};
ghost use Rattle.coupling_laws.specs.Calls.{View, IsView};
ghost use Rattle.coupling_laws.specs.Covers.{holds_call, Covers};

/// Where the least time of a transaction service has passed, so that each call at no greater time
/// has come, each call of it behind the context has come.
pub fn passed_times_settle()
    ensures { (v : View) (behind : ℕ → Bool) (c : Seen) (number : ℕ) → Covers v behind c
        → ((a : ℕ) → v.ended a ≡ true → (v.call a).service ≡ Txn number → (v.call a).time ≤ least_of c.least (Txn number) → v.come a ≡ true)
        → (a : ℕ) → behind a ≡ true → (v.call a).service ≡ Txn number → v.come a ≡ true }
{}

/// Where the dependencies on registers of a service are stored at majorities, so that each call of it
/// that one of them holds has come, each call of the service behind the context has come.
pub fn stored_dependencies_settle()
    ensures { (v : View) (behind : ℕ → Bool) (c : Seen) (number : ℕ) → IsView v → Covers v behind c
        → All (λ d. (a : ℕ) → v.ended a ≡ true → (v.call a).service ≡ Reg number → holds_call (v.call a) d ≡ true → v.come a ≡ true) (deps_of (Reg number) c.deps)
        → (a : ℕ) → behind a ≡ true → (v.call a).service ≡ Reg number → v.come a ≡ true }
{}

/// Where no dependency is on a register of a service, each call of it behind the context has come.
pub fn no_dependency_settles()
    ensures { (v : View) (behind : ℕ → Bool) (c : Seen) (number : ℕ) → IsView v → Covers v behind c → deps_of (Reg number) c.deps ≡ []
        → (a : ℕ) → behind a ≡ true → (v.call a).service ≡ Reg number → v.come a ≡ true }
{}
