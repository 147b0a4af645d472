//! The laws of times. They hold no code: each is the contract of a function that does nothing.

ghost use Rattle.txn_decision_laws.specs.DateLaws.{DatedKeeps, DatedStart, DatedTicks, EntriesRaise};

/// Times fit true moments at first and in each event: who is prepared, commits, fails or reads does so
/// at or above the moment of the step in which it began; who has committed ended in a step whose moment
/// is above its time; and who has ended has a time.
pub fn times_fit_dates()
    ensures kept { DatedKeeps }
    ensures first { DatedStart }
    ensures ticked { DatedTicks }
{}

/// In every run, whose readings begin no later than they end, a call that has entered a service of transactions
/// in a step has a least time there that is not below the true moment of that step.
pub fn entries_raise_least_times()
    ensures { EntriesRaise }
{}
