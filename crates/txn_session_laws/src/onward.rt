//! The laws of transactions and snapshots from one event to the next.

ghost use Rattle.txn_session_laws.specs.OnwardLaws.{SessionsGoOn, LinesAreTold};

/// With every event messages stay what they were, owners stay what they are, and each transaction and
/// each snapshot goes on: it keeps its operation, and is in the same attempt, with what that had asked
/// for and knew, or in the next one. Given: lines are those of the call's keys and hear replies to what
/// they await, and no attempt that is undone hears of a commit.
pub fn sessions_go_on()
    ensures { SessionsGoOn }
{}

/// A line that was granted its locks, was prepared, has given its locks back or is shown versions was
/// sent the very reply that says so; a transaction past its guard found that it holds, and one whose guard
/// failed gives its locks back no earlier than what it was shown; and a snapshot's lines are final at its
/// time: at the start, with every event, and as the clock goes on. Given besides: where the coordinator
/// alone is asked for its decision or the last release, the lines of the others are dropped.
pub fn lines_are_told()
    ensures { LinesAreTold }
{}
