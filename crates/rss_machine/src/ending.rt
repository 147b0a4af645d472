//! How a run, and a stage in it, stands.

use rss_model::How;
use rss_tables::StubEnd;

/// How a run stands.
#[derive(Clone, Copy, PartialEq, Eq)]
pub enum Ending {
    /// All stages are settled, and none was killed or unavailable.
    Done,
    /// All stages are settled, and some was killed or unavailable.
    Hurt,
    /// The log is full.
    Limit,
    /// No act, go or stub is enabled under any reading.
    Stuck,
    /// There is a step to come.
    Unfinished,
}

/// How a stage stands.
#[derive(Clone, Copy, PartialEq, Eq)]
pub enum StageState {
    Unborn,
    Live,
    Exited,
    /// Killed or unavailable, and the end of its stub, if it has ended.
    Ended(How, Option<StubEnd>),
}
