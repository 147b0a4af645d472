//! Theory: how great stamps are in every run.
#![tactic(auto)]

mod laws;

pub use laws::stamps_are_bounded;
