//! Theory: the places of calls are the one regular order.
#![tactic(auto)]

mod laws;

pub use laws::{
    alone_files_keep_to_services, dependencies_come_first, register_places_are_regular,
};
