//! Whose turn it is, and what a stage waits for.

use crate::step::StepKind;
use rss_tables::Await;

/// The next step of a stage, or why it has none.
#[derive(Clone, Copy, PartialEq, Eq)]
pub enum Turn {
    Step(StepKind),
    /// The step waits until the true moment has passed this time.
    Past(StepKind, u64),
    /// The stage waits for another.
    Blocked(Await),
    Unborn,
    Over,
}

/// When a stage's act, or its stub's step, is enabled.
#[derive(Clone, Copy, PartialEq, Eq)]
pub enum Enabling {
    Never,
    Always,
    /// In a step whose reading begins above this time.
    After(u64),
}

/// What the fates order for a message that is to be delivered.
#[derive(Clone, Copy, PartialEq, Eq)]
pub enum Fate {
    Deliver,
    /// It is lost instead.
    Lose,
    /// It is delivered, and then once more.
    Again,
}
