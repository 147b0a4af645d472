//! Code: names of a script become numbers, or the first fault is named.
#![tactic(auto)]

mod binding;
mod environment;
mod fault;
mod laws;
mod limits;
mod mention;
mod name_faults;
mod names;
mod numbering;
mod shapes;
mod spawned;
mod tally;

pub use binding::bind;
pub use fault::{BindError, ScriptFault, ScriptFaultKind};
pub use laws::{bound_scripts_are_named, bound_scripts_have_limits};
pub use names::Names;
pub use spawned::add_spawned;
pub use tally::Tally;
