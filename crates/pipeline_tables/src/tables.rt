//! What a pipeline file says, table by table, with names where one table names another.

use rss_names::{Name, Seq};

/// The root's own keys. `drivers` is none where the file leaves it to the number of stages.
#[derive(Drop)]
pub struct RootTable {
    pub tries: u8,
    pub max_steps: u32,
    pub earliest_end: u32,
    pub replicas: u8,
    pub registers: Seq<Name>,
    pub drivers: Option<u8>,
}

/// A shard with its keys. `service` is none where the file leaves it to the service `txn`.
#[derive(Drop)]
pub struct ShardTable {
    pub name: Name,
    pub keys: Seq<Name>,
    pub service: Option<Name>,
}

/// A pipe from one stage to another.
#[derive(Clone, Copy)]
pub struct PipeTable {
    pub name: Name,
    pub from: Name,
    pub to: Name,
    pub capacity: u8,
}

/// A stage with the text of its script.
#[derive(Drop)]
pub struct StageTable {
    pub name: Name,
    pub script: Seq<u8>,
    pub earliest_end: u32,
}

/// Who is meant by the target of a withhold: a shard, or a replica by its number, 1 to 7. The
/// service is none where the file leaves it to the service `reg`.
#[derive(Clone, Copy)]
pub enum TargetName {
    Shard(Name),
    Replica(u8, Option<Name>),
}

/// The requests of a stage to a target that are to be lost.
#[derive(Clone, Copy)]
pub struct WithholdTable {
    pub stage: Name,
    pub target: TargetName,
    pub from: u32,
    pub count: u32,
}

/// A stage that is to be killed in place of one of its acts.
#[derive(Clone, Copy)]
pub struct KillTable {
    pub stage: Name,
    pub act: u32,
}

/// What a service keeps: keys of transactions, or registers.
#[derive(Clone, Copy, PartialEq, Eq)]
pub enum ServiceKind {
    Txn,
    Reg,
}

/// A further service. Only one of kind `Reg` has registers, and its replicas alone have a meaning.
#[derive(Drop)]
pub struct ServiceTable {
    pub name: Name,
    pub kind: ServiceKind,
    pub registers: Seq<Name>,
    pub replicas: u8,
}

/// All tables of a file, each kind in file order.
pub struct FileTables {
    pub root: RootTable,
    pub shards: Seq<ShardTable>,
    pub pipes: Seq<PipeTable>,
    pub stages: Seq<StageTable>,
    pub withholds: Seq<WithholdTable>,
    pub kills: Seq<KillTable>,
    pub services: Seq<ServiceTable>,
}

impl Drop for FileTables {
    fn drop(self) {
        let FileTables {
            root: _root,
            shards: _shards,
            pipes: _pipes,
            stages: _stages,
            withholds: _withholds,
            kills: _kills,
            services: _services,
        } = self;
    }
}
