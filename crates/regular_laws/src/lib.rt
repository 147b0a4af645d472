//! Theory: the places of calls are one regular order over all services.
#![tactic(auto)]

mod laws;

pub use laws::places_are_regular;
