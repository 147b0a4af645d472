//! Table: the machine as a whole: its state, its steps and their refusals, its runs, and what is reported of them.
#![tactic(auto)]

mod ending;
mod place;
mod session;
mod state;
mod step;
mod turn;

pub use ending::{Ending, StageState};
pub use place::{KeyedCall, PlaceKey, PlacePart, Placed};
pub use session::{OwnerKind, Session};
pub use state::{Dates, Life, Mark, OwnerFate};
pub use step::{Logged, Step, StepKind, StepRefusal};
pub use turn::{Enabling, Fate, Turn};
