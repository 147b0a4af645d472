//! Code: the prepared writers of a shard, and which of them a snapshot waits for or passes by.
#![tactic(auto)]

mod index;
mod sifting;
mod table;
mod writer;

pub use table::PreparedTable;
pub use writer::PreparedWriter;
