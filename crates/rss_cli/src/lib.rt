//! Code: the commands: the input's two parts, the texts of faults, and the top call.
#![tactic(auto)]

mod answer;
mod asked;
mod commands;
mod disk;
mod fault;
mod fault_lines;
mod generated;
mod laws;
mod play;
mod status;
mod telling;

pub use commands::{still_top, top};
pub use laws::printed_logs_replay;
pub use status::Status;
pub use world_report::report;
