//! Table: histories of calls and messages, and what it means that one legal order keeps them.
#![tactic(auto)]

mod formulas;
mod history;
mod laws;
mod op;

pub use formulas::{holds, value_at, value_of};
pub use history::{Candidate, Entry, History, How, Token, is_same_token};
pub use laws::{
    causality_has_no_cycle, nothing_is_regular, read_follows_its_write, scripts_are_followed,
};
pub use op::{Formula, Guard, Op, Reply, Shown};
