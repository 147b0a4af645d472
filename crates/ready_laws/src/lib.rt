//! Theory: what messages, links, stubs, dependencies and operations are in every run.
#![tactic(auto)]

mod laws;

pub use laws::{
    dependencies_are_on_registers, links_are_sound, messages_are_owned, operations_fit_files,
    stubs_are_of_stages,
};
