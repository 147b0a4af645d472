//! The laws of what sessions do with the replies that they await.

ghost use Rattle.std.specs.Prelude.{◌≡◌, Some};
ghost use Rattle.truetime.specs.Reading.{Reading};
ghost use Rattle.rss_names.specs.declared.service.Target.{Target};
ghost use Rattle.rss_wire.specs.declared.messages.Request.{Request};
ghost use Rattle.rss_wire.specs.declared.messages.Reply.{Reply};
ghost use Rattle.rss_tables.specs.Lines.{Line};
ghost use Rattle.rss_tables.specs.SnapshotSession.{SnapSession, snap_hears};
ghost use Rattle.rss_tables.specs.TransactionSession.{TxnSession, txn_hears};
ghost use Rattle.session_laws.specs.Awaits.{txn_awaits, snap_awaits, IsReplyTo};
ghost use Rattle.session_laws.specs.Cases.{TxnTurn};
ghost use Rattle.session_laws.specs.SnapCases.{SnapTurn};

/// Where a line of a transaction awaits the reply to a request, and hears one that some shard gives to
/// it, the transaction does one of the things that are listed, and no other.
pub fn transactions_do_one_of_these_with_a_reply()
    ensures { (t : TxnSession) (l : Line) (at : Reading) (target : Target) (q : Request) (r : Reply) →
        txn_awaits t t.phase l ≡ Some (target, q) → IsReplyTo q r → TxnTurn t l at r (txn_hears t l at r) }
{}

/// So does a snapshot.
pub fn snapshots_do_one_of_these_with_a_reply()
    ensures { (t : SnapSession) (l : Line) (target : Target) (q : Request) (r : Reply) →
        snap_awaits t t.phase l ≡ Some (target, q) → IsReplyTo q r → SnapTurn t l r (snap_hears t l r) }
{}
