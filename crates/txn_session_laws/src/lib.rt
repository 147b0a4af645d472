//! Theory: what never changes of transactions and snapshots under way, what their lines await, how they go
//! on with every event, and what their lines were told. Each law is the contract of a function that does
//! nothing.
#![tactic(auto)]

mod frames;
mod onward;

pub use frames::{
    answers_are_heard, frames_are_kept, no_call_has_the_number_of_none,
    the_coordinator_alone_is_asked, what_is_awaited_is_kept, what_is_under_way_is_kept,
};
pub use onward::{lines_are_told, sessions_go_on};
