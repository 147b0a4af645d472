//! Code: the World, which makes steps of all kinds and refuses them.
#![tactic(auto)]

mod world;

pub use world::World;
