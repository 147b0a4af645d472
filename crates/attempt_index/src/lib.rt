//! Code: lists that ascend, searched by halves, and the attempts that stand beside keys.
#![tactic(auto)]

mod index;
mod listing;
mod orders;
mod sorted;

pub use index::{KeyAttempt, drop_keys, find_pairs, put_keys};
pub use listing::put_beside;
pub use sorted::{Ordered, drop_item, place_of, put, search};
