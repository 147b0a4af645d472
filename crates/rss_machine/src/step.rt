//! Steps, and why a step is refused.

use rss_names::StageId;
use rss_wire::NetRefusal;
use thiserror::Error;
use truetime::{Contradiction, Interval};

/// What a step does.
#[derive(Clone, Copy, PartialEq, Eq)]
pub enum StepKind {
    /// A stage makes one statement, or goes on with a call that waited for a time or a decision.
    Act(StageId),
    /// A pending message is delivered.
    Go(u32),
    /// A pending message is lost.
    Lose(u32),
    /// A delivered message is delivered once more.
    Again(u32),
    /// A live stage is killed.
    Kill(StageId),
    /// The stub of a stage that died goes on.
    Stub(StageId),
}

/// One step, with the reading of the clock that it is made with.
#[derive(Clone, Copy, PartialEq, Eq)]
pub struct Step {
    pub kind: StepKind,
    pub at: Interval,
}

/// A step that was made, and the driver who made it. Driver 0 is no thread: it replays a list.
#[derive(Clone, Copy, PartialEq, Eq)]
pub struct Logged {
    pub step: Step,
    pub driver: u8,
}

/// Why a step is refused. The causes are tested in this order.
#[derive(Clone, Copy, Debug, PartialEq, Eq, Error)]
pub enum StepRefusal {
    /// The log has as many steps as the file allows.
    #[error("the log is full")]
    LogFull,
    /// The reading ends before the true moment.
    #[error("{0}")]
    Reading(Contradiction),
    /// An act or a kill of a stage that is over.
    #[error("the stage is over")]
    StageOver,
    /// The state of the message does not allow the step.
    #[error("{0}")]
    Message(NetRefusal),
    /// Nothing enables the step.
    #[error("the step is not enabled")]
    NotEnabled,
}
