//! The laws of legal orders.

ghost use Rattle.std.specs.Prelude.{ℕ, ◌≢◌, ◌↔◌, Bool, List, IsTrue, AllPairs, Contains};
ghost use Rattle.rss_names.specs.declared.service.Key.{Key};
ghost use Rattle.rss_model.specs.declared.op.Shown.{Shown};
ghost use Rattle.rss_model.specs.declared.history.Entry.{Entry};
ghost use Rattle.rss_model.specs.Legal.{Legal};
ghost use Rattle.order_laws.specs.Standing.{Stands};
ghost use Rattle.order_laws.specs.KeySets.{KeepToSets, calls_of_set};
ghost use Rattle.order_laws.specs.LastWriter.{Readings, AreReadings, IsShownRightly, IsLegalFor};

/// An order is legal where each call was shown, of each key that it reads, what the last writer of
/// the key before it wrote, and the opening value where there is none. So legality is a matter of one
/// key at a time.
pub fn legal_by_last_writers()
    ensures { (h : List Entry) (c : List ℕ) (readings : Readings) →
        AllPairs (λ a b. a ≢ b) c → AreReadings h c readings →
        ((call : ℕ) (shown : Shown) → Stands c call → Contains (readings call) shown →
        IsShownRightly h c readings call shown) →
        Legal h c }
{}

/// A legal order has readings: each call was shown, of each key that it reads, what the last writer
/// of the key before it wrote, whom its reading names, and the opening value where there is none.
pub fn legal_orders_show_last_writers()
    ensures { (h : List Entry) (c : List ℕ) →
        AllPairs (λ a b. a ≢ b) c → Legal h c →
        (readings : Readings) × AreReadings h c readings ×
        ((call : ℕ) (shown : Shown) → Stands c call → Contains (readings call) shown →
        IsShownRightly h c readings call shown) }
{}

/// An order is legal where it is legal for each of any number of sets of keys that together hold all
/// keys, as the keys of each service.
pub fn legal_by_sets_of_keys()
    ensures { (h : List Entry) (c : List ℕ) (readings : Readings) (sets : ℕ → Key → Bool) →
        AllPairs (λ a b. a ≢ b) c → AreReadings h c readings →
        ((key : Key) → (n : ℕ) × IsTrue (sets n key)) →
        ((n : ℕ) → IsLegalFor h c readings (sets n)) →
        Legal h c }
{}

/// Where keys are dealt into any number of disjoint sets, and each call keeps to the keys of one of
/// them, as to those of its service, an order is legal exactly where of each set the calls alone are
/// legal in that order.
pub fn legal_set_by_set()
    ensures { (h : List Entry) (c : List ℕ) (set_of_call : ℕ → ℕ) (set_of_key : Key → ℕ) →
        KeepToSets h c set_of_call set_of_key →
        Legal h c ↔ ((set : ℕ) → Legal h (calls_of_set set_of_call set c)) }
{}
