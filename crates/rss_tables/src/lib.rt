//! Table: what one component does with one event: a replica or a shard with a request, a session
//! with a reply.
#![tactic(auto)]

mod endings;
mod fences;
mod lines;
mod phases;
mod register_session;

pub use endings::{Await, StubEnd};
pub use fences::FenceWork;
pub use lines::LineState;
pub use phases::{SnapPhase, TxnPhase};
pub use register_session::{RegEnd, RegPhase, RegWork};
