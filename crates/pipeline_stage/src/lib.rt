//! Code: a stage with its script, its open blocks and what it has seen, and a pipe between two stages.
#![tactic(auto)]

mod behind;
mod blocks;
mod bound;
mod copies;
mod local;
mod operation;
mod pipe;
mod reading;
mod script;
mod stage;

pub use copies::{Copies, joined};
pub use operation::op_of;
pub use pipe::{Chunk, Front, Pipe};
pub use reading::awaits_of_statement;
pub use script::{NumberedStatement, script_of, statement_in};
pub use stage::Stage;
