//! What a session has sent, as a test asks for it.

use rss_names::Target;
use rss_wire::Request;
use session_outbox::Outbox;

/// The kind of a request, with its numbers.
#[derive(Clone, Copy)]
pub enum Kind {
    Lock { k: u32 },
    Prepare { earliest_end: u64, value: u64 },
    Decide { commit: bool, time: u64 },
    Commit { time: u64 },
    Abort { k: u32 },
    Inquire { call: u32 },
    Release { time: u64, last: bool },
    Snapshot { time: u64, skip: bool },
    Other,
}

/// The next request that was sent: the number of its shard, and its kind.
pub fn next(out: &mut Outbox) -> Option<(u8, Kind)> {
    let sending = out.pop()?;
    let shard = match sending.target() {
        Target::Shard(shard) => shard.number(),
        Target::Replica(_service, _replica) => 0,
    };
    Some((shard, kind_of(&sending.into_request())))
}

// The kind of a request.
fn kind_of(request: &Request) -> Kind {
    match request {
        Request::Lock { attempt, .. } => Kind::Lock { k: attempt.k },
        Request::Prepare {
            earliest_end,
            writes,
            ..
        } => Kind::Prepare {
            earliest_end: *earliest_end,
            value: writes.get(0).map_or(0, |write| write.1),
        },
        Request::Decide { commit, time, .. } => Kind::Decide {
            commit: *commit,
            time: *time,
        },
        Request::Commit { commit_time, .. } => Kind::Commit { time: *commit_time },
        Request::Abort { attempt } => Kind::Abort { k: attempt.k },
        Request::Inquire { attempt } => Kind::Inquire { call: attempt.call },
        Request::Release { time, last, .. } => Kind::Release {
            time: *time,
            last: *last,
        },
        Request::Snapshot {
            read_time,
            skip,
            ..
        } => Kind::Snapshot {
            time: *read_time,
            skip: *skip,
        },
        Request::Fix { .. } => Kind::Other,
        Request::Ask { .. } => Kind::Other,
        Request::Stamp { .. } => Kind::Other,
        Request::Store { .. } => Kind::Other,
    }
}
