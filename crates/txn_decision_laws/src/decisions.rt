//! The laws of requests and decisions.

ghost use Rattle.txn_decision_laws.specs.Calm.{AllCalm};
ghost use Rattle.txn_decision_laws.specs.DecisionLaws.{
  HoldsAtFirst,
  StaysAsStepsAreCounted,
  LinesStayCalm,
  RequestsStayJust,
  DecisionsStayKept,
  NoneIsUndone,
};
ghost use Rattle.txn_state_laws.specs.Decided.{AllDecided};
ghost use Rattle.txn_state_laws.specs.Justified.{AllJust};

/// Only while an attempt gets its locks can somebody be in the way of one of its lines.
pub fn lines_wait_for_others_only_while_they_lock()
    ensures first { HoldsAtFirst AllCalm }
    ensures counted { StaysAsStepsAreCounted AllCalm }
    ensures kept { LinesStayCalm }
{}

/// Each request that was sent to a shard, but for inquiries, which change nothing there, is what an attempt,
/// a snapshot or a stub has reason to ask: locks and writes are those of the attempt's line, the coordinator
/// alone is asked to decide, to commit once all are prepared, a commit or an abort that is told is kept, and
/// locks are given back at one time, or by an attempt that is undone.
pub fn requests_are_just()
    ensures first { HoldsAtFirst AllJust }
    ensures counted { StaysAsStepsAreCounted AllJust }
    ensures kept { RequestsStayJust }
{}

/// Each decision that a shard keeps is one of an attempt that the shard coordinates. A commit is of the
/// present attempt of a transaction that asked for it, at its greatest prepare time or later; all earlier
/// attempts are aborted; and who knows of a commit, or was told a decision, knows of what is kept.
pub fn decisions_are_kept()
    ensures first { HoldsAtFirst AllDecided }
    ensures counted { StaysAsStepsAreCounted AllDecided }
    ensures kept { DecisionsStayKept }
{}

/// An attempt that asked to be undone never hears of a commit.
pub fn undone_attempts_hear_of_no_commit()
    ensures { NoneIsUndone }
{}
