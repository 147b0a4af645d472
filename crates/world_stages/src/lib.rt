//! Code: the stages, the pipes between them, and what the stages did.
#![tactic(auto)]

mod calls;
mod exits;
mod laws;
mod opening;
mod parents;
mod passing;
mod pipes;
mod readying;
mod stages;
mod staging;
mod standing;
mod statements;

pub use laws::{stands_as_the_machine, waits_as_the_machine};
pub use parents::Parents;
pub use staging::Staging;
pub use standing::{is_done, is_hurt};
