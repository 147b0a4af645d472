//! Copies of requests, which are sent again after a loss.

ghost use Rattle.std.specs.Prelude.{◌≡◌, IfOk};

use crate::messages::Request;
use std::alloc::{AllocError, Global};

impl Request {
    /// An equal request.
    pub fn try_clone(&self, alloc: Global) -> Result<Request, AllocError>
        ensures same { IfOk result (λ copy. copy ≡ self.now) }
    {
        match self {
            Request::Lock {
                attempt,
                coordinator,
                reads,
                writes,
            } => Ok(Request::Lock {
                attempt: *attempt,
                coordinator: *coordinator,
                reads: reads.try_clone(alloc)?,
                writes: writes.try_clone(alloc)?,
            }),
            Request::Prepare {
                attempt,
                least,
                earliest_end,
                writes,
            } => Ok(Request::Prepare {
                attempt: *attempt,
                least: *least,
                earliest_end: *earliest_end,
                writes: writes.try_clone(alloc)?,
            }),
            Request::Decide {
                attempt,
                commit,
                time,
            } => Ok(Request::Decide {
                attempt: *attempt,
                commit: *commit,
                time: *time,
            }),
            Request::Commit {
                attempt,
                commit_time,
            } => Ok(Request::Commit {
                attempt: *attempt,
                commit_time: *commit_time,
            }),
            Request::Abort { attempt } => Ok(Request::Abort { attempt: *attempt }),
            Request::Inquire { attempt } => Ok(Request::Inquire { attempt: *attempt }),
            Request::Release {
                attempt,
                time,
                last,
            } => Ok(Request::Release {
                attempt: *attempt,
                time: *time,
                last: *last,
            }),
            Request::Snapshot {
                read_time,
                least,
                keys,
                skip,
            } => Ok(Request::Snapshot {
                read_time: *read_time,
                least: *least,
                keys: keys.try_clone(alloc)?,
                skip: *skip,
            }),
            Request::Fix { deps } => Ok(Request::Fix {
                deps: deps.try_clone(alloc)?,
            }),
            Request::Ask { key } => Ok(Request::Ask { key: *key }),
            Request::Stamp { key } => Ok(Request::Stamp { key: *key }),
            Request::Store {
                key,
                value,
                stamp,
                writer,
            } => Ok(Request::Store {
                key: *key,
                value: *value,
                stamp: *stamp,
                writer: *writer,
            }),
        }
    }
}
