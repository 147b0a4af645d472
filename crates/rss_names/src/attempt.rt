//! Attempts of read-write transactions.

/// One attempt of a read-write transaction: the number of the call, and the attempt's own number
/// `k`, counted from 1 within the call.
#[derive(Clone, Copy, PartialEq, Eq, Hash)]
pub struct Attempt {
    pub call: u32,
    pub k: u32,
}
