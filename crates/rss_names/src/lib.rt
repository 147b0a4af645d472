//! Table: the numbers and names that all other crates speak of, and the list type of their records.
#![tactic(auto)]

mod attempt;
mod ids;
mod limits;
mod name;
mod same;
mod search;
mod seq;
mod service;
mod steps;
mod text;

pub use attempt::Attempt;
pub use ids::{CallId, ReplicaId, ShardId, StageId};
pub use limits::{
    MOST_KEYS_OF_A_CALL, MOST_OF_A_KIND, MOST_PIPES, MOST_REGISTERS, MOST_REPLICAS, MOST_SHARDS,
    MOST_STAGES, MOST_STEPS,
};
pub use name::{BadName, Name};
pub use same::{
    is_attempt_before, is_same_attempt, is_same_key, is_same_service, is_younger_attempt,
};
pub use search::{Times1, last_at_most};
pub use seq::Seq;
pub use service::{Key, ServiceId, Target};
pub use steps::Steps;
pub use text::put_number;
