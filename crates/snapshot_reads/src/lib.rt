//! Code: the session of a snapshot: it asks each shard of its keys once at a read time, and a second
//! time at the snapshot time where a writer that was passed by may stand at or below it.
#![tactic(auto)]

mod asking;
mod blocking;
mod hearing;
mod session;
mod snap;

pub use session::Session;
pub use snap::Snap;
