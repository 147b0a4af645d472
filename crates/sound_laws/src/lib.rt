//! Theory: what every pipeline file keeps, of spawns, pipes, services and limits.
#![tactic(auto)]

mod laws;

pub use laws::files_are_sound;
