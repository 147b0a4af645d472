//! Theory: every run of every sound file keeps what every reported run owes.
#![tactic(auto)]

mod laws;

pub use laws::runs_keep_promise;
