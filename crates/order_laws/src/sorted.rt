//! The laws of calls that are sorted by their keys.

ghost use Rattle.std.specs.Prelude.{ℕ, ◌≡◌, ◌≢◌, ◌⊎◌, ◌↔◌, List, map, AllPairs, Contains};
ghost use Rattle.order_laws.specs.Standing.{StandsBefore};
ghost use Rattle.order_laws.specs.Sorted.{AreSorted, IsAsymmetric};
ghost use Rattle.rss_model.specs.declared.history.Entry.{Entry};
ghost use Rattle.rss_model.specs.Regular.{Regular};
ghost use Rattle.order_laws.specs.LastWriter.{Readings};
ghost use Rattle.order_laws.specs.ByKeys.{AreRegularByKeys};

/// A key by which calls are sorted.
pub trait SortKey {
    /// Whether a key is below another.
    ghost below: { Self → Self → Type 0 };
}

/// Calls that are sorted by their keys, whatever the keys are, are each there once, their keys are
/// in one total order, and a call stands before another exactly where its key is below the other's.
pub fn sorted_calls_stand_as_their_keys<K: SortKey>()
    ensures same { (keyed order : List (K × ℕ)) →
        AreSorted (λ x. x.1) (λ x y. K.below x.0 y.0) keyed order →
        (call : ℕ) → Contains (map (λ x. x.1) order) call ↔ Contains (map (λ x. x.1) keyed) call }
    ensures once { (keyed order : List (K × ℕ)) →
        IsAsymmetric K.below → AreSorted (λ x. x.1) (λ x y. K.below x.0 y.0) keyed order →
        AllPairs (λ a b. a ≢ b) (map (λ x. x.1) order) }
    ensures total { (keyed order : List (K × ℕ)) (x y : K × ℕ) →
        AreSorted (λ x. x.1) (λ x y. K.below x.0 y.0) keyed order →
        Contains keyed x → Contains keyed y →
        (x ≡ y) ⊎ (K.below x.0 y.0 ⊎ K.below y.0 x.0) }
    ensures compared { (keyed order : List (K × ℕ)) (x y : K × ℕ) →
        IsAsymmetric K.below → AreSorted (λ x. x.1) (λ x y. K.below x.0 y.0) keyed order →
        Contains keyed x → Contains keyed y →
        StandsBefore (map (λ x. x.1) order) x.1 y.1 ↔ K.below x.0 y.0 }
{}

/// Calls that are sorted by their keys are in a regular order where these facts hold of the keys: all
/// ended calls are there, and else only mutations; each was shown what the last writer below it
/// wrote; and messages, and real time where it counts, lead upwards.
pub fn regular_by_keys<K: SortKey>()
    ensures { (h : List Entry) (readings : Readings) (keyed order : List (K × ℕ)) →
        IsAsymmetric K.below → AreSorted (λ x. x.1) (λ x y. K.below x.0 y.0) keyed order →
        AreRegularByKeys (λ x. x.1) (λ x y. K.below x.0 y.0) h readings keyed →
        Regular h (map (λ x. x.1) order) }
{}
