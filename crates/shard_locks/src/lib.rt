//! Code: the locks of a shard, with wound-wait.
#![tactic(auto)]

mod answer;
mod buried;
mod conflict;
mod holders;
mod holding;
mod table;
mod wounding;

pub use answer::{Holders, LockAnswer};
pub use table::LockTable;
