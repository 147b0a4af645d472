//! Theory: all that every run of a sound file keeps for the code of its steps, in one record.
#![tactic(auto)]

mod laws;

pub use laws::{
    acts_find_times_passed, runs_are_ready, runs_keep_all, waking_lines_sleep, works_fit_files,
};
