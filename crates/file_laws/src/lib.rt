//! Theory: what holds of the configuration of every pipeline file.
#![tactic(auto)]

mod laws;

pub use laws::{files_are_in_order, files_name_keys, tables_are_in_file_order};
