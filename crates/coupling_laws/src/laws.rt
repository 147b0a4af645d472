//! The laws of what a context covers, one for each change of a context. They hold no code: each is
//! the contract of a function that does nothing.

ghost use Rattle.std.specs.Prelude.{◌≡◌, ℕ, ◌≤◌, ◌⊎◌, Bool, true, false, Option, [], All};
ghost use Rattle.rss_names.specs.declared.service.ServiceId.{ServiceId};
ghost use Rattle.rss_names.specs.declared.service.ServiceId.TheVariants.{Txn, Reg};
ghost use Rattle.rss_names.specs.Services.{same_service};
ghost use Rattle.causal_context.specs.declared.dep.Dep.{Dep};
ghost use Rattle.causal_context.specs.Services.{IsService};
ghost use Rattle.causal_context.specs.LeastTimes.{least_of};
ghost use Rattle.causal_context.specs.Deps.{given_dep};
ghost use Rattle.causal_context.specs.Seen.{Seen, nothing_seen, context_joined, after_txn, after_read, after_write, after_fence, fenced_outside, entered, deps_cleared};
ghost use Rattle.coupling_laws.specs.Calls.{View, IsView, Grows, nobody, either, and_one};
ghost use Rattle.coupling_laws.specs.Covers.{holds, IsValid, Covers, IsAt, NoOther};

/// A context that begins covers the calls behind it, which are none.
pub fn empty_context_covers()
    ensures { (v : View) → Covers v nobody nothing_seen }
{}

/// What a context covers it covers at each later moment.
pub fn context_covers_later()
    ensures { (v w : View) (behind : ℕ → Bool) (c : Seen) → Grows v w → Covers v behind c → Covers w behind c }
{}

/// A context that covers calls covers fewer of them.
pub fn context_covers_fewer()
    ensures { (v : View) (behind calls : ℕ → Bool) (c : Seen) → ((a : ℕ) → calls a ≡ true → behind a ≡ true) → Covers v behind c → Covers v calls c }
{}

/// A copy covers what the context covers.
pub fn copied_context_covers()
    ensures { (v : View) (behind : ℕ → Bool) (c copy : Seen) → copy ≡ c → Covers v behind c → Covers v behind copy }
{}

/// Two contexts joined cover the calls behind both.
pub fn joined_contexts_cover()
    ensures { (v : View) (behind calls : ℕ → Bool) (c d : Seen) → IsView v → Covers v behind c → Covers v calls d
        → Covers v (either behind calls) (context_joined c d) }
{}

/// A call of a transaction service ends, at a time that is not below the least time of the context,
/// which used this service alone or saw nothing: the context then covers that call too.
pub fn context_with_a_transaction_covers()
    ensures { (v : View) (behind : ℕ → Bool) (c : Seen) (call number : ℕ) → IsView v → Covers v behind c → IsService (Txn number)
        → v.ended call ≡ true → (v.call call).service ≡ Txn number → least_of c.least (Txn number) ≤ (v.call call).time
        → IsAt c (Txn number) → c.deps ≡ []
        → Covers v (and_one call behind) (after_txn c (Txn number) (v.call call).time) }
{}

/// A read ends whose step has come, or whose dependency holds it: the context then covers it too.
pub fn context_with_a_read_covers()
    ensures { (v : View) (behind : ℕ → Bool) (c : Seen) (call number : ℕ) (dep : Option Dep) → Covers v behind c → IsService (Reg number)
        → v.ended call ≡ true → (v.call call).service ≡ Reg number → IsAt c (Reg number) → c.deps ≡ []
        → All (IsValid v) (given_dep dep) → All (λ d. d.key.service ≡ Reg number) (given_dep dep)
        → (v.come call ≡ true) ⊎ (holds (given_dep dep) (v.call call) ≡ true)
        → Covers v (and_one call behind) (after_read c (Reg number) dep) }
{}

/// A write ends whose step has come: the context then covers it too.
pub fn context_with_a_write_covers()
    ensures { (v : View) (behind : ℕ → Bool) (c : Seen) (call number : ℕ) → Covers v behind c → IsService (Reg number)
        → v.ended call ≡ true → (v.call call).service ≡ Reg number → IsAt c (Reg number) → c.deps ≡ [] → v.come call ≡ true
        → Covers v (and_one call behind) (after_write c (Reg number)) }
{}

/// The dependencies of the service that was used last are cleared, since each call of it has come.
pub fn cleared_context_covers()
    ensures { (v : View) (behind : ℕ → Bool) (c : Seen) (number : ℕ) → Covers v behind c → IsAt c (Reg number)
        → ((a : ℕ) → behind a ≡ true → (v.call a).service ≡ Reg number → v.come a ≡ true)
        → Covers v behind (deps_cleared c) }
{}

/// A fence of a service ends, when each call of it has come.
pub fn context_with_a_fence_covers()
    ensures { (v : View) (behind : ℕ → Bool) (c : Seen) (id : ServiceId) → IsView v → Covers v behind c
        → ((a : ℕ) → behind a ≡ true → (v.call a).service ≡ id → v.come a ≡ true)
        → Covers v behind (after_fence c id) }
{}

/// Every service was fenced, when each call has come.
pub fn fenced_context_covers()
    ensures { (v : View) (behind : ℕ → Bool) (c : Seen) → Covers v behind c → ((a : ℕ) → behind a ≡ true → v.come a ≡ true)
        → Covers v behind (fenced_outside c) }
{}

/// Where a context used no service last, each call behind it has come.
pub fn unused_services_have_come()
    ensures { (v : View) (behind : ℕ → Bool) (c : Seen) → Covers v behind c → c.last.services ≡ []
        → (a : ℕ) → behind a ≡ true → v.come a ≡ true }
{}

/// A transaction service is entered, when the context used no other, at a moment whose latest
/// reading is not below the true moment: each call that has come comes before it.
pub fn entered_transaction_context_covers()
    ensures { (v : View) (behind : ℕ → Bool) (c : Seen) (number latest : ℕ) → IsView v → Covers v behind c → IsService (Txn number)
        → NoOther c (Txn number) → ((a : ℕ) → behind a ≡ true → v.come a ≡ true → v.before a latest ≡ true)
        → Covers v behind (entered c (Txn number) latest) }
{}

/// A register service is entered, when the context used no other.
pub fn entered_register_context_covers()
    ensures { (v : View) (behind : ℕ → Bool) (c : Seen) (number latest : ℕ) → Covers v behind c → IsService (Reg number)
        → NoOther c (Reg number) → Covers v behind (entered c (Reg number) latest) }
{}

/// When a call sends its own first round, its context used its service alone or saw nothing. Then a
/// call behind it of the same transaction service has a time that is at most its least time, one of
/// another service comes before its least time, and each call behind a register call has come.
pub fn launch_finds_calls_placed()
    ensures same { (v : View) (behind : ℕ → Bool) (c : Seen) (number : ℕ) → Covers v behind c
        → (a : ℕ) → behind a ≡ true → (v.call a).service ≡ Txn number → (v.call a).time ≤ least_of c.least (Txn number) }
    ensures other { (v : View) (behind : ℕ → Bool) (c : Seen) (number : ℕ) → Covers v behind c → IsAt c (Txn number)
        → (a : ℕ) → behind a ≡ true → same_service (v.call a).service (Txn number) ≡ false → v.before a (least_of c.least (Txn number)) ≡ true }
    ensures register { (v : View) (behind : ℕ → Bool) (c : Seen) (number : ℕ) → Covers v behind c → IsAt c (Reg number) → c.deps ≡ []
        → (a : ℕ) → behind a ≡ true → v.come a ≡ true }
{}
