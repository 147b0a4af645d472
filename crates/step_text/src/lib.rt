//! Code: the step text, in which each line is a step with its reading of the clock.
#![tactic(auto)]

mod error;
mod kind;
mod line;
mod number;
mod print;
mod text;

pub use error::StepTextError;
pub use print::print_steps;
pub use text::read_steps;
