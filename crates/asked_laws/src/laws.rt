//! The laws of what targets are asked, and of what is under way with them. They hold no code: each is the
//! contract of a function that does nothing.

ghost use Rattle.asked_laws.specs.Laws.{RequestsFitTargets, InRunsOf, InRuns};
ghost use Rattle.txn_state_laws.specs.Dated.{AllDated};
ghost use Rattle.txn_state_laws.specs.Decided.{AllDecided};
ghost use Rattle.txn_state_laws.specs.Fresh.{AllFresh};
ghost use Rattle.txn_state_laws.specs.Justified.{AllJust};
ghost use Rattle.txn_state_laws.specs.Orderly.{AllOrderly};
ghost use Rattle.txn_state_laws.specs.Passed.{AllPassed};
ghost use Rattle.txn_state_laws.specs.Told.{AllTold};
ghost use Rattle.txn_state_laws.specs.Voted.{AllVoted};
ghost use Rattle.txn_session_laws.specs.Standing.{UnderWay};
ghost use Rattle.txn_shard_laws.specs.Unreleased.{AllClosing};

/// In every run of a file that is sound, whose readings begin no later than they end: each message is with
/// one of the file's shards, or with a replica that the file gives one of its register services; and a
/// shard is asked about keys of the file alone whose home it is.
pub fn requests_fit_targets()
    ensures { RequestsFitTargets }
{}

/// In every such run: what owners have under way with shards is of their operation, its lines are on the
/// shards of its keys, and what it hears is the reply to what it awaits; lines are told what shards show;
/// each request to a shard has its reason; and decisions are kept.
pub fn what_is_under_way_fits()
    ensures under_way { InRunsOf UnderWay }
    ensures told { InRuns AllTold }
    ensures just { InRuns AllJust }
    ensures decided { InRuns AllDecided }
{}

/// In every such run: shards hold, and have prepared, what lines asked for; an attempt that was told that it
/// is prepared is so, or is aborted, or is applied at its commit; versions come of committed transactions,
/// and what was released or answered stays closed; an answer may have missed only who cannot end before its
/// read time; times fit the true moments of begin, entry and end; and reads are fresh.
pub fn shards_keep_what_they_tell()
    ensures orderly { InRunsOf AllOrderly }
    ensures voted { InRuns AllVoted }
    ensures closing { InRuns AllClosing }
    ensures passed { InRuns AllPassed }
    ensures dated { InRuns AllDated }
    ensures fresh { InRuns AllFresh }
{}
