//! Theory: what a printed log is, read again: the file, and the steps that were made.
#![tactic(auto)]

mod laws;

pub use laws::{
    policies_are_printable, printed_logs_are_short, printed_logs_split, printed_steps_are_read,
};
