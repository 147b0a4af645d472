//! Table: a group of members that keeps one log of requests, step by step.
#![tactic(auto)]

mod messages;
mod steps;

pub use messages::{Ballot, Body, Slot};
pub use steps::{GroupRefusal, GroupStep};
