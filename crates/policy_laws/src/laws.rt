//! The laws of the serial policy. They hold no code: each is the contract of a function that does nothing.

ghost use Rattle.policy_laws.specs.Laws.{PoliciesAreProper, PoliciesEndWhole, PoliciesRun, PolicyStepsAreTaken};

/// In every run of a file whose log is not full, where no step begins above what the policy's clock has
/// read: the step that the policy makes of a stage's turn is not refused, and no step begins above what the
/// clock reads behind it.
pub fn policy_steps_are_taken()
    ensures { PolicyStepsAreTaken }
{}

/// The steps of the policy are a run of every file.
pub fn policies_run()
    ensures { PoliciesRun }
{}

/// They begin their readings no later than they end, and name stages by their numbers from 1.
pub fn policies_are_proper()
    ensures { PoliciesAreProper }
{}

/// Of a file that is sound they end where the log is full or no stage has a step: the clock always has a
/// reading above the time that a turn waits for.
pub fn policies_end_whole()
    ensures { PoliciesEndWhole }
{}
