//! Code: the words by which the program is called.
#![tactic(auto)]

mod command;
mod generated;
mod numbers;

pub use command::{Command, Form, command_of};
pub use generated::gen_number;
