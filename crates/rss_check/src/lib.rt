//! Code: whether an order of the calls of a history is regular and follows the scripts, or the first
//! thing that is wrong.
#![tactic(auto)]

mod calls;
mod causal;
mod checker;
mod legal;
mod places;
mod scripts;
mod table;
mod timely;
mod verdict;

pub use checker::check;
pub use verdict::Verdict;
