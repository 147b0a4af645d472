//! Theory: requests are to targets of the file, about keys that live there; and what is under way with them.
#![tactic(auto)]

mod laws;

pub use laws::{requests_fit_targets, shards_keep_what_they_tell, what_is_under_way_fits};
