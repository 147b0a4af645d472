//! Places of calls in the one legal order, and the keys by which they are sorted.

use carstamps::Carstamp;
use rss_names::CallId;

/// By what placed calls are sorted: first by the step in which the call takes effect, then by the
/// order within its service.
#[derive(Clone, Copy, PartialEq, Eq, PartialOrd, Ord)]
pub struct PlaceKey {
    pub step: u32,
    pub part: PlacePart,
}

/// The order within a service; at equal steps transactions come before register calls.
#[derive(Clone, Copy, PartialEq, Eq, PartialOrd, Ord)]
pub enum PlacePart {
    /// A transaction by its time; at equal times those that write come before those that read.
    Txn {
        time: u64,
        reads: bool,
        call: u32,
    },
    /// A register call by its register and stamp; the write of a stamp comes before its reads.
    Register {
        register: u16,
        stamp: Carstamp,
        reads: bool,
        call: u32,
    },
}

/// A placed call with its key, and whether it has ended.
#[derive(Clone, Copy, PartialEq, Eq)]
pub struct KeyedCall {
    pub key: PlaceKey,
    pub call: CallId,
    pub finished: bool,
}

/// A call's place in the one legal order, counted from 1, and whether the call has ended.
#[derive(Clone, Copy, PartialEq, Eq)]
pub struct Placed {
    pub call: CallId,
    pub place: u32,
    pub finished: bool,
}
