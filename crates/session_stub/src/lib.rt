//! Code: what an owner of messages keeps beside its session: the losses of its messages, and its works.
#![tactic(auto)]

mod losses;
mod plan;
mod works;

pub use losses::Losses;
pub use plan::{Plan, add_fences, fence_of};
pub use works::{Next, Works};
