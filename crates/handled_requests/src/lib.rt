//! Code: the requests that a replica handled in a run.
#![tactic(auto)]

mod requests;

pub use requests::handled;
