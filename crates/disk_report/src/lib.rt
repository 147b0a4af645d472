//! Code: what a durable replica holds in the end, as text.
#![tactic(auto)]

mod lines;
mod reporting;

pub use reporting::disk_report;
