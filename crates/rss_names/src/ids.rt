//! The numbers of stages, shards, replicas and calls. Contracts see each as a plain number.

ghost use Rattle.std.specs.Prelude.{◌≡◌, ℕ, ◌<◌, ◌≤◌, ◌^◌, ◌-◌};
ghost use Rattle.std.specs.Option.{SomeIff};

use crate::limits::{MOST_REPLICAS, MOST_SHARDS, MOST_STAGES};
use std::marker::Model;

/// The number of a stage: 1 to 16, in file order.
#[derive(Clone, Copy, PartialEq, Eq)]
pub struct StageId {
    number: u8,
}

impl Model for StageId {
    ghost Value = { ℕ };

    ghost view = { λ s. s.number };

    ghost invariant = { λ s. (1 ≤ s.number) × (s.number ≤ 16) };

    ghost inverse = { λ n. record { number = n } };
}

impl StageId {
    /// The stage of this number, if the number is in range.
    pub fn new(number: u8) -> Option<StageId>
        ensures { SomeIff result ((1 ≤ number) × (number ≤ 16)) number }
    {
        if number == 0 || number > MOST_STAGES {
            return None;
        }
        Some(StageId { number })
    }

    /// The number, 1 to 16.
    pub fn number(self) -> u8
        ensures same { result ≡ self }
        ensures low { 1 ≤ result }
        ensures high { result ≤ 16 }
    {
        self.number
    }
}

/// The number of a shard: 1 to 16, in file order.
#[derive(Clone, Copy, PartialEq, Eq)]
pub struct ShardId {
    number: u8,
}

impl Model for ShardId {
    ghost Value = { ℕ };

    ghost view = { λ s. s.number };

    ghost invariant = { λ s. (1 ≤ s.number) × (s.number ≤ 16) };

    ghost inverse = { λ n. record { number = n } };
}

impl ShardId {
    /// The shard of this number, if the number is in range.
    pub fn new(number: u8) -> Option<ShardId>
        ensures { SomeIff result ((1 ≤ number) × (number ≤ 16)) number }
    {
        if number == 0 || number > MOST_SHARDS {
            return None;
        }
        Some(ShardId { number })
    }

    /// The number, 1 to 16.
    pub fn number(self) -> u8
        ensures same { result ≡ self }
        ensures low { 1 ≤ result }
        ensures high { result ≤ 16 }
    {
        self.number
    }
}

/// The number of a replica of a register service: 1 to 7.
#[derive(Clone, Copy, PartialEq, Eq)]
pub struct ReplicaId {
    number: u8,
}

impl Model for ReplicaId {
    ghost Value = { ℕ };

    ghost view = { λ s. s.number };

    ghost invariant = { λ s. (1 ≤ s.number) × (s.number ≤ 7) };

    ghost inverse = { λ n. record { number = n } };
}

impl ReplicaId {
    /// The replica of this number, if the number is in range.
    pub fn new(number: u8) -> Option<ReplicaId>
        ensures { SomeIff result ((1 ≤ number) × (number ≤ 7)) number }
    {
        if number == 0 || number > MOST_REPLICAS {
            return None;
        }
        Some(ReplicaId { number })
    }

    /// The number, 1 to 7.
    pub fn number(self) -> u8
        ensures same { result ≡ self }
        ensures low { 1 ≤ result }
        ensures high { result ≤ 7 }
    {
        self.number
    }
}

/// The number of a call: at least 1, in the order of beginning.
#[derive(Clone, Copy, PartialEq, Eq)]
pub struct CallId {
    number: u32,
}

impl Model for CallId {
    ghost Value = { ℕ };

    ghost view = { λ s. s.number };

    ghost invariant = { λ s. 1 ≤ s.number };

    ghost inverse = { λ n. record { number = n } };
}

impl CallId {
    /// The call of this number, if the number is in range.
    pub fn new(number: u32) -> Option<CallId>
        ensures { SomeIff result (1 ≤ number) number }
    {
        if number == 0 {
            return None;
        }
        Some(CallId { number })
    }

    /// The number, at least 1.
    pub fn number(self) -> u32
        ensures same { result ≡ self }
        ensures low { 1 ≤ result }
    {
        self.number
    }
}
