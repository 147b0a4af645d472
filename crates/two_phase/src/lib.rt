//! Code: the session of a read-write transaction: it locks its keys, prepares, has its coordinator
//! decide, and waits until its commit time and its earliest end have passed.
#![tactic(auto)]

mod asking;
mod blocking;
mod formulas;
mod hearing;
mod phases;
mod session;
mod txn;

pub use session::Session;
pub use txn::Txn;
