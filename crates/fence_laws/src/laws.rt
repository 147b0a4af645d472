//! The laws of fences and of the steps of times. They hold no code: each is the contract of a function
//! that does nothing.

ghost use Rattle.fence_laws.specs.Laws.{FencesEndWhenTimesHaveCome, StepsOfTimesFitMoments};

/// In every state of a run the steps of times fit the true moments after its steps, which never fall:
/// a time that is at least the moment after a step has its step behind that one; a time that is below
/// the moment after a step has its step by that one; and a greater time has no earlier step.
pub fn steps_of_times_fit_moments()
    ensures { StepsOfTimesFitMoments }
{}

/// What the fence of a transaction service waits for has come when it ends. Over each step of a run, of
/// the works that a call, a fence statement or a stub had left, or plans in the step, some of the first
/// are done behind the step and the others are left. Where one that is done waited for a time, that is
/// the least time of its service in the context of the owner, the true moment is above it, and its step
/// is among the steps made: so each call of that service whose time is at most that least time has its
/// step by then.
pub fn fences_end_when_times_have_come()
    ensures { FencesEndWhenTimesHaveCome }
{}
