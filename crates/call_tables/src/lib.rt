//! Code: what a history says of each call, by the call's number, and the table of all keys along an order of calls.
#![tactic(auto)]

mod cells;
mod latest;
mod noting;
mod tables;
mod walk;

pub use noting::{held_at, places_by_call};
pub use tables::CallTables;
pub use walk::Walk;
