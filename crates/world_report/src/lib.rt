//! Code: the report of a World, and its summary.
#![tactic(auto)]

mod calls;
mod reporting;
mod services;
mod stages;

pub use reporting::{report, summary};
