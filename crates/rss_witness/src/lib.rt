//! Code: the places of calls in the one legal order.
#![tactic(auto)]

mod keys;
mod numbering;
mod placing;

pub use placing::places;
