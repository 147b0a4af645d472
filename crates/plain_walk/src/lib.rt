//! Code: a slow and plain walk of a stage's script along a history, step by step: where it begins,
//! where it comes to without an entry, by an entry and by what it takes, what it tells of a pipe, and
//! whether it may end there.
#![tactic(auto)]

mod bound;
mod endings;
mod entries;
mod first;
mod history;
mod operations;
mod replies;
mod script;
mod silent;
mod steps;
mod takes;
mod walk;

pub use entries::entry_step;
pub use history::entry_stage;
pub use script::giver_of;
pub use silent::silent_step;
pub use takes::{take_step, tells};
pub use walk::StageWalk;
