//! What a checker answers.

use rss_names::{CallId, StageId};

/// What is wrong with an order of the calls of a history, if anything is: the first that applies.
#[derive(Clone, Copy, PartialEq, Eq)]
pub enum Verdict {
    /// The order is regular, and each stage runs its script.
    Yes,
    /// It is no order of all ended calls and some mutations.
    NotCandidate,
    /// The first call of the order that is not shown what those before it have written.
    NotLegal(CallId),
    /// The least call that does not stand behind all that it can know of.
    NotCausal(CallId),
    /// The least call that does not stand behind all that real time puts before it.
    NotTimely(CallId),
    /// The least stage that does not run its script.
    NotScript(StageId),
}
