//! Code: room for the next step of the machine, made before it, so that the step itself takes no memory.
#![tactic(auto)]

mod acts;
mod calls;
mod copies;
mod deaths;
mod messages;
mod statements;
mod steps;
mod turns;

pub use steps::make_room;
