//! The laws of readings and of the true moment.

ghost use Rattle.std.specs.Prelude.{◌≡◌, ℕ, ◌+◌, ◌<◌, ◌≤◌, ◌↔◌, List, [], ◌∷◌, ◌++◌, length, take, All, IsTrue};
ghost use Rattle.truetime.specs.Reading.{Reading, IsReading, reading_at, AreConsistent};
ghost use Rattle.truetime.specs.TrueMoment.{IsTrueMoment, true_moment, admits, moment_after, AreAdmitted};

/// Readings that are admitted one after another, from the first on, are consistent: none ends
/// before the beginning of itself or of an earlier one.
#[tactic(auto, using(crate::proofs::Readings::admitted_meet))]
pub fn admitted_readings_are_consistent()
    ensures { (readings : List Reading) → AreAdmitted 0 readings → AreConsistent readings }
{}

/// Consistent readings are admitted one after another: nothing else is ever refused.
#[tactic(auto, using(crate::proofs::Readings::meeting_admitted))]
pub fn consistent_readings_are_admitted()
    ensures { (readings : List Reading) → All IsReading readings → AreConsistent readings
        → AreAdmitted 0 readings }
{}

/// Where the readings are consistent, the true moment at a step lies in that step's reading.
#[tactic(auto, using(crate::proofs::Moment::moment_inside))]
pub fn true_moment_lies_in_its_reading()
    ensures { (readings : List Reading) (step moment : ℕ) → AreConsistent readings
        → step < length readings → IsTrueMoment readings (step + 1) moment
        → ((reading_at readings step).earliest ≤ moment) × (moment ≤ (reading_at readings step).latest) }
{}

/// The true moment never falls from one step to a later one.
#[tactic(auto, using(crate::proofs::Moment::moment_rises))]
pub fn true_moment_rises()
    ensures { (readings : List Reading) (n k before after : ℕ) → n ≤ k
        → IsTrueMoment readings n before → IsTrueMoment readings k after → before ≤ after }
{}

/// After any number of readings there is one true moment, which the computed one is.
#[tactic(auto, using(crate::proofs::Moment::true_moment_is, crate::proofs::Moment::moment_once))]
pub fn true_moment_is_computed()
    ensures is { (readings : List Reading) (n : ℕ)
        → IsTrueMoment readings n (true_moment (take n readings)) }
    ensures alone { (readings : List Reading) (n a b : ℕ) → IsTrueMoment readings n a
        → IsTrueMoment readings n b → a ≡ b }
{}

/// One more reading raises the computed true moment as an admission does, and the reading is
/// admitted behind the others exactly where that moment allows it.
#[tactic(auto, using(crate::proofs::Readings::moment_grows, crate::proofs::Readings::admitted_grows))]
pub fn one_more_reading()
    ensures moment { (readings : List Reading) (at : Reading)
        → true_moment (readings ++ at ∷ []) ≡ moment_after (true_moment readings) at }
    ensures admitted { (readings : List Reading) (at : Reading)
        → AreAdmitted 0 (readings ++ at ∷ [])
        ↔ (AreAdmitted 0 readings × IsReading at × IsTrue (admits (true_moment readings) at)) }
{}
