//! Code: the machine, whose parts a step changes: why a step is refused, and what each kind of step does.
#![tactic(auto)]

mod acts;
mod calls;
mod clock;
mod deaths;
mod enabling;
mod finishing;
mod losses;
mod machine;
mod messages;
mod opening;
mod refusing;
mod standing;
mod statements;
mod steps;
mod stubs;
mod turns;

pub use clock::Clock;
pub use machine::Machine;
