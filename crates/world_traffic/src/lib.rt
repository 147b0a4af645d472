//! Code: all owners and all messages as one part of the machine's state, whose calls are moves of it.
#![tactic(auto)]

mod counting;
mod endings;
mod losing;
mod messages;
mod openings;
mod room;
mod sending;
mod traffic;
mod turning;

pub use traffic::Traffic;
