//! The laws of majorities.

ghost use Rattle.std.specs.Prelude.{ℕ, ◌≡◌, ◌<◌, ◌↔◌, Bool, List, length, IsTrue};
ghost use Rattle.carstamps.specs.declared.carstamp.Carstamp.{Carstamp};
ghost use Rattle.carstamps.specs.Stamp.{IsAtMost, opening_stamp};
ghost use Rattle.quorum_laws.specs.Majority.{majority_passes, HaveCommonPlace, is_held, majority_stamp};

/// Two majorities of as many replicas have one in common. Both may be of one list, or each of what
/// the replicas were at a moment of its own.
pub fn majorities_meet<X, Y>()
    ensures { (xs : List X) (ys : List Y) (p : X → Bool) (q : Y → Bool) →
        length xs ≡ length ys →
        IsTrue (majority_passes p xs) → IsTrue (majority_passes q ys) →
        HaveCommonPlace p q xs ys }
{}

/// A majority holds exactly the stamps up to the greatest one that a majority holds. Without any
/// replica this is so of the stamps above the opening one.
pub fn majorities_hold_up_to_the_greatest<X>()
    ensures replicas { (xs : List X) (stamp_of : X → Carstamp) (stamp : Carstamp) →
        0 < length xs →
        IsTrue (is_held stamp_of xs stamp) ↔ IsAtMost stamp (majority_stamp stamp_of xs) }
    ensures above_opening { (xs : List X) (stamp_of : X → Carstamp) (stamp : Carstamp) →
        ¬ IsAtMost stamp opening_stamp →
        IsTrue (is_held stamp_of xs stamp) ↔ IsAtMost stamp (majority_stamp stamp_of xs) }
{}
