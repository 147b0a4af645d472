//! The laws of the order of stamps.

ghost use Rattle.std.specs.Prelude.{◌≡◌, ◌≢◌, ℕ, ◌<◌, ◌≤◌, ◌↔◌, ◌⊎◌, IsTrue};
ghost use Rattle.carstamps.specs.Stamp.{IsBelow, IsAtMost, stamp_lt, stamp_le, opening_stamp, next_stamp};
ghost use Rattle.carstamps.specs.declared.carstamp.Carstamp.{Carstamp as Stamp};

use crate::carstamp::Carstamp;

/// Every stamp is at most itself.
pub fn at_most_is_reflexive()
    ensures { (a : Stamp) → IsAtMost a a }
{}

/// A stamp that is at most a second one, which is at most a third one, is at most the third one.
pub fn at_most_is_transitive()
    ensures { (a b c : Stamp) → IsAtMost a b → IsAtMost b c → IsAtMost a c }
{}

/// Two stamps of which each is at most the other are the same.
pub fn at_most_is_antisymmetric()
    ensures { (a b : Stamp) → IsAtMost a b → IsAtMost b a → a ≡ b }
{}

/// Of two stamps, one is at most the other.
pub fn at_most_is_total()
    ensures { (a b : Stamp) → IsAtMost a b ⊎ IsAtMost b a }
{}

/// A stamp is below another exactly where it is at most that one and differs from it.
pub fn below_is_strict()
    ensures { (a b : Stamp) → IsBelow a b ↔ (IsAtMost a b × (a ≢ b)) }
{}

/// The tests answer true exactly where their relations hold.
pub fn tests_decide()
    ensures below { (a b : Stamp) → IsTrue (stamp_lt a b) ↔ IsBelow a b }
    ensures at_most { (a b : Stamp) → IsTrue (stamp_le a b) ↔ IsAtMost a b }
{}

/// The stamp of the opening values is at most every stamp.
pub fn zero_is_least()
    ensures { (a : Stamp) → IsAtMost opening_stamp a }
{}

/// A write's stamp is above the greatest stamp that the write found.
pub fn next_is_above()
    ensures { (greatest : Stamp) (call : ℕ) → IsBelow greatest (next_stamp greatest call) }
{}

/// The stamps of two different calls differ.
pub fn stamps_of_calls_differ()
    ensures { (a b : Stamp) → a.call ≢ b.call → a ≢ b }
{}
