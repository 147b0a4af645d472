//! Code: the input's two parts: a file, and what stands behind the first line `%steps`.
#![tactic(auto)]

mod marking;

pub use marking::split;
