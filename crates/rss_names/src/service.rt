//! Services, the keys that they keep, and the shards and replicas that serve them.

use crate::ids::{ReplicaId, ShardId};

/// A service: a sharded store of transactions, or a store of quorum registers. The number, from 1
/// to 8, counts within the kind, in file order. All transaction services come before all register
/// services.
#[derive(Clone, Copy, PartialEq, Eq)]
pub enum ServiceId {
    Txn(u8),
    Reg(u8),
}

/// A key of a transaction service, or a register. The index counts from 0: keys over all shards in
/// file order, registers over all register services in the order of services.
#[derive(Clone, Copy, PartialEq, Eq)]
pub struct Key {
    pub service: ServiceId,
    pub index: u16,
}

/// Who serves a request: a shard, or one replica of a register service.
#[derive(Clone, Copy, PartialEq, Eq)]
pub enum Target {
    Shard(ShardId),
    Replica(ServiceId, ReplicaId),
}
