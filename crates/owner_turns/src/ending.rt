//! How a turn ends.

use causal_context::Context;
use rss_model::Shown;
use rss_names::Seq;

/// How a turn of an owner ends.
#[derive(Drop)]
pub enum TurnEnd {
    /// The owner goes on.
    Goes,
    /// A call has its reply, and leaves this context for its stage.
    Replied(Seq<Shown>, Context),
    /// A fence statement is done.
    FenceOver,
    /// A stub is done.
    StubOver,
}
