//! The catalogue of requests and replies.

use carstamps::Carstamp;
use causal_context::Dep;
use rss_names::{Attempt, Key, Seq, ShardId};

/// How a coordinator decided an attempt: committed at a time, or aborted.
#[derive(Clone, Copy, PartialEq, Eq)]
pub enum Outcome {
    Committed(u64),
    Aborted,
}

/// A version of a key: a value, the commit time of the transaction that wrote it, and its call. The
/// opening version has value 0, time 0 and writer 0.
#[derive(Clone, Copy, PartialEq, Eq)]
pub struct Version {
    pub value: u64,
    pub time: u64,
    pub writer: u32,
}

/// An attempt in the way of a request, with its coordinator.
#[derive(Clone, Copy, PartialEq, Eq)]
pub struct Holder {
    pub attempt: Attempt,
    pub coordinator: ShardId,
}

/// A prepared attempt that a snapshot passed by, with its prepare time.
#[derive(Clone, Copy, PartialEq, Eq)]
pub struct Skipped {
    pub attempt: Attempt,
    pub coordinator: ShardId,
    pub prepare_time: u64,
}

/// What a replica holds of a register: a value, its stamp, and the call that wrote it.
#[derive(Clone, Copy)]
pub struct RegReply {
    pub value: u64,
    pub stamp: Carstamp,
    pub writer: u32,
}

/// A request from a stage's call, fence or stub to a shard or a replica.
pub enum Request {
    /// A transaction asks a shard for its locks. Answered by `Granted`, `Wait` or `Wounded`.
    Lock {
        attempt: Attempt,
        coordinator: ShardId,
        reads: Seq<Key>,
        writes: Seq<Key>,
    },
    /// A transaction that holds all its locks asks a shard to prepare. Answered by `Prepared` or
    /// `Wounded`.
    Prepare {
        attempt: Attempt,
        least: u64,
        earliest_end: u64,
        writes: Seq<(Key, u64)>,
    },
    /// A transaction, or a stub, asks the coordinator to decide. Answered by `Decided`.
    Decide {
        attempt: Attempt,
        commit: bool,
        time: u64,
    },
    /// Tells a shard that an attempt is committed. Answered by `Done`.
    Commit {
        attempt: Attempt,
        commit_time: u64,
    },
    /// Tells a shard that an attempt is aborted. Answered by `Done`.
    Abort {
        attempt: Attempt,
    },
    /// Asks a coordinator how an attempt was decided. Answered by `Outcome` or `Open`.
    Inquire {
        attempt: Attempt,
    },
    /// A transaction whose guard failed gives its locks back at a time. Answered by `Released` or
    /// `Wounded`.
    Release {
        attempt: Attempt,
        time: u64,
        last: bool,
    },
    /// A snapshot reads keys of a shard at a time. Answered by `Values` or `Blocked`.
    Snapshot {
        read_time: u64,
        least: u64,
        keys: Seq<Key>,
        skip: bool,
    },
    /// A call or a fence stores dependencies at a replica. Answered by `Fixed`.
    Fix {
        deps: Seq<Dep>,
    },
    /// A read asks a replica for a register. Answered by `Held`.
    Ask {
        key: Key,
    },
    /// A write asks a replica for a register, to choose a greater stamp. Answered by `Held`.
    Stamp {
        key: Key,
    },
    /// A write stores its value at a replica. Answered by `Stored`.
    Store {
        key: Key,
        value: u64,
        stamp: Carstamp,
        writer: u32,
    },
}

// Written out, so that who lets a request go sees one call and none of its parts.
impl Drop for Request {
    fn drop(self) {
        match self {
            Request::Lock {
                attempt: _attempt,
                coordinator: _coordinator,
                reads: _reads,
                writes: _writes,
            } => {}
            Request::Prepare {
                attempt: _attempt,
                least: _least,
                earliest_end: _earliest_end,
                writes: _writes,
            } => {}
            Request::Decide {
                attempt: _attempt,
                commit: _commit,
                time: _time,
            } => {}
            Request::Commit {
                attempt: _attempt,
                commit_time: _commit_time,
            } => {}
            Request::Abort { attempt: _attempt } => {}
            Request::Inquire { attempt: _attempt } => {}
            Request::Release {
                attempt: _attempt,
                time: _time,
                last: _last,
            } => {}
            Request::Snapshot {
                read_time: _read_time,
                least: _least,
                keys: _keys,
                skip: _skip,
            } => {}
            Request::Fix { deps: _deps } => {}
            Request::Ask { key: _key } => {}
            Request::Stamp { key: _key } => {}
            Request::Store {
                key: _key,
                value: _value,
                stamp: _stamp,
                writer: _writer,
            } => {}
        }
    }
}

/// A reply of a shard or a replica to one request.
pub enum Reply {
    /// To `Lock`, `Prepare` or `Release`: the attempt lost its locks to an older transaction.
    Wounded,
    /// To `Lock`: the locks are held. Shows the newest version of each key that is read.
    Granted {
        shown: Seq<(Key, Version)>,
    },
    /// To `Lock`: these attempts are in the way.
    Wait {
        holders: Seq<Holder>,
    },
    /// To `Prepare`: the attempt is prepared at this time.
    Prepared {
        prepare_time: u64,
    },
    /// To `Decide`: the decision that is kept.
    Decided {
        outcome: Outcome,
    },
    /// To `Commit` and `Abort`.
    Done,
    /// To `Inquire`: the decision that is kept.
    Outcome {
        outcome: Outcome,
    },
    /// To `Inquire`: no decision is kept yet.
    Open,
    /// To `Release`: the locks are given back.
    Released,
    /// To `Snapshot`: these prepared attempts are in the way.
    Blocked {
        holders: Seq<Holder>,
    },
    /// To `Snapshot`: the version of each key at the read time, and the prepared attempts that were
    /// passed by.
    Values {
        versions: Seq<(Key, Version)>,
        skipped: Seq<Skipped>,
    },
    /// To `Fix`.
    Fixed,
    /// To `Ask` and `Stamp`: what the replica holds.
    Held {
        value: u64,
        stamp: Carstamp,
        writer: u32,
    },
    /// To `Store`.
    Stored,
}

// Written out, so that who lets a reply go sees one call and none of its parts.
impl Drop for Reply {
    fn drop(self) {
        match self {
            Reply::Wounded => {}
            Reply::Granted { shown: _shown } => {}
            Reply::Wait { holders: _holders } => {}
            Reply::Prepared {
                prepare_time: _prepare_time,
            } => {}
            Reply::Decided { outcome: _outcome } => {}
            Reply::Done => {}
            Reply::Outcome { outcome: _outcome } => {}
            Reply::Open => {}
            Reply::Released => {}
            Reply::Blocked { holders: _holders } => {}
            Reply::Values {
                versions: _versions,
                skipped: _skipped,
            } => {}
            Reply::Fixed => {}
            Reply::Held {
                value: _value,
                stamp: _stamp,
                writer: _writer,
            } => {}
            Reply::Stored => {}
        }
    }
}

/// How far a session has come.
#[derive(Clone, Copy)]
pub enum Progress {
    /// Replies are awaited.
    Going,
    /// It waits until the true moment has passed this time.
    Past(u64),
    /// The least of its sleeping lines waits for the decision of an attempt at this coordinator.
    Asleep(Attempt, ShardId),
    Done,
}
