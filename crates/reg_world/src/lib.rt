//! Code: the replicas of all register services, and the notes of when a majority first held what.
#![tactic(auto)]

mod laws;
mod majority;
mod marks;
mod registers;
mod service;
mod world;

pub use laws::{reads_as_the_machine, serves_as_the_machine};
pub use world::RegWorld;
