//! Table: readings of a clock as intervals, and the true moments that they rise to.
#![tactic(auto)]

mod interval;
mod laws;
mod moments;

pub use interval::Interval;
pub use laws::{
    admitted_readings_are_consistent, consistent_readings_are_admitted, one_more_reading,
    true_moment_is_computed, true_moment_lies_in_its_reading, true_moment_rises,
};
pub use moments::{Contradiction, Moments};
