//! What is kept of a line: its lists are parts of lists of the whole call.

use rss_names::ShardId;
use rss_tables::LineState;

/// A part of a list: `many` items from the place `from` on.
#[derive(Clone, Copy)]
pub struct Part {
    pub from: usize,
    pub many: usize,
}

/// A line whose lists are parts: its keys, and what its shard has shown, lie in lists of the call.
#[derive(Clone, Copy)]
pub struct FlatLine {
    pub shard: ShardId,
    pub reads: Part,
    pub writes: Part,
    pub state: LineState,
    pub shown: Part,
    pub skipped: Part,
    pub prepare_time: u64,
}
