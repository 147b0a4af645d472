//! Theory: how runs of turns end, and those of the serial policy.
#![tactic(auto)]

mod laws;

pub use laws::{nobody_is_hurt, serial_has_no_strays, serial_never_ends_unfinished};
