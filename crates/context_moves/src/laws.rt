//! The laws of what contexts cover in a state. They hold no code: each is the contract of a function that
//! does nothing. What the rows of the machine do to contexts is in `proofs/`, one lemma a change; the walk
//! over a whole step that cites them is a crate of its own.

ghost use Rattle.context_moves.specs.Laws.{CountedStepsKeepCovering, ServedRequestsKeepCovering, StatesAreViews};

/// In every run whose register calls are on registers of the file, and whose other calls are of
/// transaction services, what a state tells of calls is a view: a call that comes before a time comes
/// before each later one, and a register call is on a register of its service.
pub fn states_are_views()
    ensures { StatesAreViews }
{}

/// When a step is counted, contexts cover the same calls: the steps of calls that have come stay.
pub fn counted_steps_keep_covering()
    ensures { CountedStepsKeepCovering }
{}

/// When a replica has served a request, contexts cover the same calls: marks only get more.
pub fn served_requests_keep_covering()
    ensures { ServedRequestsKeepCovering }
{}
