//! Theory: messages are with shards of the file.
#![tactic(auto)]

mod laws;

pub use laws::{shards_are_the_files, targets_have_places};
