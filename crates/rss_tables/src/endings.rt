//! What a stage waits for, and how a stub ends.

use rss_names::{CallId, StageId, Target};

/// What a blocked stage waits for.
#[derive(Clone, Copy, PartialEq, Eq)]
pub enum Await {
    /// A chunk, or the end mark, of a pipe.
    Take(u8),
    /// A place in a pipe.
    Put(u8),
    /// The end of a child.
    Stage(StageId),
    /// The decision of a call that is in the way of its own.
    Call(CallId),
}

/// How a stub ends: all its fences ended, or a target was cut off.
#[derive(Clone, Copy, PartialEq, Eq)]
pub enum StubEnd {
    Fenced,
    Unfenced(Target),
}
