//! Code: what a file orders of its stages: which requests are withheld, where stages are killed, and
//! which stage spawns which.
#![tactic(auto)]

mod kills;
mod parents;
mod withholds;

pub use kills::kills_at;
pub use parents::parent_of;
pub use withholds::is_withheld;
