//! Code: the serial policy: a file's own steps, one stage after another, over a clock that steps.
#![tactic(auto)]

mod clock;
mod making;
mod policy;

pub use clock::Stepping;
pub use making::serial;
