//! Code: how many calls of each kind a history begins, and how many of them have not ended.
#![tactic(auto)]

mod counting;
mod line;

pub use counting::{Sums, sums_of};
pub use line::put_sums;
