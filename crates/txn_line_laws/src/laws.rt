//! The line of each transaction service. The laws hold no code: each is the contract of a function that
//! does nothing. They hold of every list of steps that the machine accepts, of a file whose scripts name
//! its keys, where each reading begins no later than it ends: with guards, several services, losses, repeats,
//! kills and stubs.

ghost use Rattle.txn_line_laws.specs.Laws.{TxnsAreLegal, TxnsArePlaced, TxnsAreInside, TxnsFollowEntry, CoveredTxnsStandBefore, TxnReadsAreFresh, KeptCommitsStay};

/// In every run each placed call of a transaction service was shown, of each key that it reads, what the
/// last transaction before it in the order of places wrote, or the opening value where no transaction
/// that writes the key stands before it. So it is of committed transactions, which write and may read,
/// of transactions whose guard failed, and of snapshots that have ended. The guard of a committed
/// transaction holds of what it was shown, and that of a failed one does not. The transaction whose
/// value is shown stands before the call.
pub fn transactions_are_legal()
    ensures { TxnsAreLegal }
{}

/// In every run the place of a call of a transaction service is the one of its time: of the commit time
/// that its coordinator keeps, whether it has ended or not, of the time at which its guard failed, or of
/// the snapshot's time. A transaction whose guard failed has no commit time. Each transaction and each
/// snapshot that has ended has such a time.
pub fn transactions_are_placed()
    ensures { TxnsArePlaced }
{}

/// In every run a committed transaction takes effect after the step in which it begins and, where it has
/// ended, by the step in which it does: it waits until its commit time has passed (Corbett et al.,
/// Spanner, OSDI 2012, section 4.1.2).
pub fn transactions_are_inside()
    ensures { TxnsAreInside }
{}

/// In every run a call that entered its transaction service takes effect after the step of its entry.
pub fn transactions_follow_their_entry()
    ensures { TxnsFollowEntry }
{}

/// In every run the time of a call of a transaction service is not below the least time of its service in
/// its copy of the context, which entry has raised, and above it where it is committed. So it stands after
/// each earlier call whose time that least time covers.
pub fn covered_transactions_stand_before()
    ensures { CoveredTxnsStandBefore }
{}

/// In every run a snapshot, or a transaction whose guard failed, that began after a committed transaction
/// had ended stands after it, where they share a key that was written. A snapshot may pass by a prepared
/// writer only if that one cannot end before the read time (Helt et al., SOSP 2021, section 5).
pub fn reads_of_transactions_are_fresh()
    ensures { TxnReadsAreFresh }
{}

/// From one state of a run to every later one: a commit that a coordinator keeps is kept, and makes its
/// attempt the present one of its transaction for ever, which asked for that commit or knows of it.
pub fn kept_commits_stay()
    ensures { KeptCommitsStay }
{}
