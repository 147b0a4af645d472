//! Theory: what shards are and have told, over every event of a run: they stay orderly, who was told that
//! it is prepared is so or is decided, what is closed stays closed, and snapshots missed only what they may
//! and are not before what had ended. Each law is the contract of a function that does nothing.
#![tactic(auto)]

mod closes;
mod fresh;
mod order;
mod passed;
mod votes;

pub use closes::what_is_closed_is_kept;
pub use fresh::snapshots_are_fresh;
pub use order::{requests_keep_shards_orderly, shards_are_kept_orderly};
pub use passed::answers_pass_by_rightly_for_ever;
pub use votes::votes_are_kept;
