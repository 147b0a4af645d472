//! Steps of a group, and why one is refused.

use rss_wire::NetRefusal;

/// What a step does.
#[derive(Clone, Copy, Debug, PartialEq, Eq)]
pub enum GroupStep {
    Lead(u8),
    Propose(u8, u32),
    Crash(u8),
    Go(u32),
    Lose(u32),
    Again(u32),
}

/// Why a step is refused.
#[derive(Clone, Copy, Debug, PartialEq, Eq)]
pub enum GroupRefusal {
    Message(NetRefusal),
    NotEnabled,
}
