//! The laws of views over readings of the clock. They hold no code: each is the contract of a
//! function that does nothing.

ghost use Rattle.std.specs.Prelude.{◌≡◌, ℕ, ◌≤◌, true, List, length, ◌++◌};
ghost use Rattle.rss_names.specs.declared.service.ServiceId.TheVariants.{Reg};
ghost use Rattle.truetime.specs.Reading.{Reading};
ghost use Rattle.truetime.specs.TrueMoment.{true_moment};
ghost use Rattle.coupling_laws.specs.Calls.{IsView, Grows};
ghost use Rattle.coupling_laws.specs.Moments.{Steps, StepsGrow, moment_at, view_after};

/// Where each register call is on a register of its service, the view after any readings keeps to
/// what views keep to.
pub fn views_after_readings_are_views()
    ensures { (readings : List Reading) (s : Steps)
        → ((a number : ℕ) → s.ended a ≡ true → (s.call a).service ≡ Reg number → s.home (s.call a).register ≡ Reg number)
        → IsView (view_after readings s) }
{}

/// The view grows with further readings, where what was known of calls stays.
pub fn views_grow_with_readings()
    ensures { (readings more : List Reading) (s t : Steps) → StepsGrow readings s t → Grows (view_after readings s) (view_after (readings ++ more) t) }
{}

/// A call that has come comes before each time that is not below the true moment.
pub fn calls_that_came_are_before()
    ensures { (readings : List Reading) (s : Steps) (a time : ℕ) → true_moment readings ≤ time
        → (view_after readings s).come a ≡ true → (view_after readings s).before a time ≡ true }
{}

/// A call comes before a time exactly where its step is no later than some step made whose true
/// moment is at most that time.
pub fn before_means_an_early_step()
    ensures from { (readings : List Reading) (s : Steps) (a time step : ℕ) → step ≤ length readings → s.step a ≤ step
        → moment_at readings step ≤ time → (view_after readings s).before a time ≡ true }
    ensures to { (readings : List Reading) (s : Steps) (a time : ℕ) → (view_after readings s).before a time ≡ true
        → (step : ℕ) × (step ≤ length readings) × (s.step a ≤ step) × (moment_at readings step ≤ time) }
{}
