//! Table: the stamps by which register values are ordered.
#![tactic(auto)]

mod carstamp;
mod laws;

pub use carstamp::{Carstamp, greatest_of};
pub use laws::{
    at_most_is_antisymmetric, at_most_is_reflexive, at_most_is_total, at_most_is_transitive,
    below_is_strict, next_is_above, stamps_of_calls_differ, tests_decide, zero_is_least,
};
