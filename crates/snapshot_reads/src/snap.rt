//! What a session is told of its call.

use rss_names::Key;

/// The call of a snapshot: its number, its keys, and the least time in its context.
#[derive(Clone, Copy)]
pub struct Snap<'a> {
    pub call: u32,
    pub keys: &'a [Key],
    pub least: u64,
}
