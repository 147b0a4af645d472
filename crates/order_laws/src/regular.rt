//! The laws of causality and of regular orders.

ghost use Rattle.std.specs.Prelude.{ℕ, ◌≢◌, List, AllPairs, IsTrue};
ghost use Rattle.rss_model.specs.declared.history.Entry.{Entry};
ghost use Rattle.rss_model.specs.Mutation.{is_mutation, Conflicts};
ghost use Rattle.rss_model.specs.RealTime.{BeforeInRealTime};
ghost use Rattle.rss_model.specs.Causality.{BeforeByMessages, ReadsFrom, Generates, CausallyBefore};
ghost use Rattle.rss_model.specs.Candidate.{IsCandidate, InOrder};
ghost use Rattle.rss_model.specs.Legal.{Legal};
ghost use Rattle.rss_model.specs.Regular.{Regular};
ghost use Rattle.order_laws.specs.Standing.{Stands, StandsBefore};

/// Where of each generating pair of causality whose later call stands in an order the earlier one
/// stands before it, so it is with each pair of causality.
pub fn causality_follows_its_generating_pairs()
    ensures { (h : List Entry) (c : List ℕ) →
        AllPairs (λ a b. a ≢ b) c →
        ((a b : ℕ) → Generates h a b → Stands c b → StandsBefore c a b) →
        (a b : ℕ) → CausallyBefore h a b → Stands c b → StandsBefore c a b }
{}

/// In a legal order a call that another one reads from stands before it.
pub fn writers_stand_before_their_readers()
    ensures { (h : List Entry) (c : List ℕ) (a b : ℕ) →
        Legal h c → ReadsFrom h b a → Stands c b → StandsBefore c a b }
{}

/// An order is regular where it is a candidate, legal, keeps the order of messages, and keeps real
/// time from ended mutations to mutations and conflicting reads.
pub fn regular_from_its_parts()
    ensures { (h : List Entry) (c : List ℕ) →
        IsCandidate h c → Legal h c →
        ((a b : ℕ) → BeforeByMessages h a b → Stands c b → StandsBefore c a b) →
        ((a b : ℕ) → BeforeInRealTime h a b → IsTrue (is_mutation h a) → IsTrue (is_mutation h b) →
        InOrder c a b) →
        ((a b : ℕ) → BeforeInRealTime h a b → Conflicts h b a → InOrder c a b) →
        Regular h c }
{}
