//! Code: the text of a history and an order of its calls, printed and read.
#![tactic(auto)]

mod entries;
mod error;
mod following;
mod formulas;
mod line;
mod named;
mod operations;
mod print;
mod reading;
mod stop;
mod text;

pub use error::HistoryError;
pub use print::print_history;
pub use text::read_history;
