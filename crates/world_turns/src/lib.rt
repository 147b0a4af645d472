//! Code: reads of a machine between two steps: whose turn it is, what a stage waits for, and how the
//! run stands.
#![tactic(auto)]

mod endings;
mod turns;
mod waits;

pub use endings::ending;
pub use turns::next_for;
pub use waits::blocked;
