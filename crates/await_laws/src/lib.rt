//! Theory: of whom it is told that he has no step, and waits for nothing.
#![tactic(auto)]

mod laws;

pub use laws::over_is_told;
