//! The limits that a pipeline file keeps. Clauses and definitions say the same numbers in digits.

/// The greatest number of stages.
pub const MOST_STAGES: u8 = 16;

/// The greatest number of shards, over all transaction services.
pub const MOST_SHARDS: u8 = 16;

/// The greatest number of pipes.
pub const MOST_PIPES: u8 = 16;

/// The greatest number of registers, over all register services.
pub const MOST_REGISTERS: usize = 64;

/// The greatest number of replicas of a register service.
pub const MOST_REPLICAS: u8 = 7;

/// The greatest number of services of one kind.
pub const MOST_OF_A_KIND: u8 = 8;

/// The greatest number of keys that one call names.
pub const MOST_KEYS_OF_A_CALL: usize = 8;

/// The greatest number of steps in a log.
pub const MOST_STEPS: u32 = 200_000;
