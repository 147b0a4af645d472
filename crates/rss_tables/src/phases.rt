//! How far a transaction and a snapshot have come. All times are those of the true-time clock, in
//! microseconds.

/// How far a read-write transaction has come.
#[derive(Clone, Copy, PartialEq, Eq)]
pub enum TxnPhase {
    /// `Lock` was sent to each shard.
    Locking,
    /// All locks are held: `Prepare` was sent to each shard.
    Preparing,
    /// The guard failed: `Release` at this time was sent to each shard but the coordinator.
    Freeing(u64),
    /// The other shards have released: `Release` was sent to the coordinator.
    FreeingLast(u64),
    /// All shards are prepared: `Decide` with this greatest prepare time was sent.
    Deciding(u64),
    /// Committed at this time: it waits until that and its earliest end have passed.
    Waiting(u64),
    /// The attempt was wounded: `Decide` without commit was sent.
    Undoing,
    /// Committed at this time.
    Committed(u64),
    /// The guard failed at this time.
    Failed(u64),
}

/// How far a snapshot has come.
#[derive(Clone, Copy, PartialEq, Eq)]
pub enum SnapPhase {
    /// Each shard was asked at this read time; prepared writers may be skipped.
    First(u64),
    /// Shards with a skipped writer at or below this snapshot time were asked again at it.
    Second(u64),
    /// Done at this snapshot time.
    Done(u64),
}
