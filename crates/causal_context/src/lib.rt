//! Table: what a stage has seen of each service, as it travels with the stage's messages.
#![tactic(auto)]

mod context;
mod dep;
mod deps;
mod last;
mod laws;
mod least;

pub use context::Context;
pub use dep::Dep;
pub use last::Last;
pub use laws::{
    entry_raises, fences_empty, join_is_associative, join_is_commutative, join_is_idempotent,
    least_times_never_fall, nothing_adds_nothing, orders_are_kept,
};
