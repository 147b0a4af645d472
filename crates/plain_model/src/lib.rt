//! Code: slow and plain functions that compute what the model defines of a history: whether an
//! order of its calls is legal, what is potentially causal, and whether an order is regular.
#![tactic(auto)]

mod calls;
mod candidacy;
mod causality;
mod formulas;
mod legality;
mod messages;
mod realtime;
mod regularity;
mod tables;

pub use calls::reply_of;
pub use causality::causal;
pub use formulas::{formula_value, guard_holds};
pub use legality::{legal, shown_at};
pub use regularity::regular;
