//! Code: a replica of a register service.
#![tactic(auto)]

mod replica;

pub use replica::Replica;
