//! The laws of what sessions keep, whatever they do.

ghost use Rattle.std.specs.Prelude.{ℕ};
ghost use Rattle.truetime.specs.Reading.{Reading};
ghost use Rattle.rss_wire.specs.declared.messages.Reply.{Reply};
ghost use Rattle.rss_tables.specs.Lines.{Line};
ghost use Rattle.rss_tables.specs.Turns.{Turn};
ghost use Rattle.rss_tables.specs.SnapshotSession.{SnapSession, snap_starts, snap_wakes};
ghost use Rattle.rss_tables.specs.TransactionSession.{TxnSession, txn_starts, txn_wakes, txn_passes};
ghost use Rattle.session_laws.specs.Cases.{TxnTurn};
ghost use Rattle.session_laws.specs.Frames.{IsLine, HasTxnFrames, HasSnapFrames, SameTxn, SameSnap};
ghost use Rattle.session_laws.specs.SnapCases.{SnapTurn};

/// A transaction whose lines are those of its keys keeps its call, its keys, its guard, its formulas, its
/// bounds and what its lines are made of: where it starts, where one of its lines hears a reply or wakes,
/// and where a time passes. So its lines are always those of its keys.
pub fn transactions_keep_what_they_are()
    ensures starts { (t : TxnSession) → SameTxn t (txn_starts t).after }
    ensures hears { (home : ℕ → ℕ) (t : TxnSession) (l : Line) (at : Reading) (r : Reply) (turn : Turn TxnSession) →
        HasTxnFrames home t → IsLine t.lines l → TxnTurn t l at r turn → SameTxn t turn.after }
    ensures wakes { (home : ℕ → ℕ) (t : TxnSession) (l : Line) →
        HasTxnFrames home t → IsLine t.lines l → SameTxn t (txn_wakes t l).after }
    ensures passes { (t : TxnSession) → SameTxn t (txn_passes t t.phase).after }
    ensures stays { (home : ℕ → ℕ) (t u : TxnSession) → SameTxn t u → HasTxnFrames home t → HasTxnFrames home u }
{}

/// A snapshot whose lines are those of its keys keeps its call, its keys, its bound and what its lines are
/// made of: where it starts, and where one of its lines hears a reply or wakes.
pub fn snapshots_keep_what_they_are()
    ensures starts { (t : SnapSession) → SameSnap t (snap_starts t).after }
    ensures hears { (home : ℕ → ℕ) (t : SnapSession) (l : Line) (r : Reply) (turn : Turn SnapSession) →
        HasSnapFrames home t → IsLine t.lines l → SnapTurn t l r turn → SameSnap t turn.after }
    ensures wakes { (home : ℕ → ℕ) (t : SnapSession) (l : Line) →
        HasSnapFrames home t → IsLine t.lines l → SameSnap t (snap_wakes t l).after }
    ensures stays { (home : ℕ → ℕ) (t u : SnapSession) → SameSnap t u → HasSnapFrames home t → HasSnapFrames home u }
{}
