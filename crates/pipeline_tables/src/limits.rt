//! Limits of a pipeline file that its tables alone keep.

/// The greatest number of attempts of a call.
pub const MOST_TRIES: u32 = 8;

/// The greatest earliest end, in microseconds.
pub const LONGEST_END: u32 = 1_000_000;

/// The greatest number of chunks that a pipe holds.
pub const MOST_CHUNKS: u32 = 64;

/// The greatest number of keys of a shard.
pub const MOST_KEYS: usize = 64;

/// The greatest number of withholds.
pub const MOST_WITHHOLDS: usize = 64;

/// The greatest number of further services.
pub const MOST_FURTHER: usize = 6;
