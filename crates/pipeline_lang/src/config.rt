//! What a valid pipeline file says.

use crate::script::Script;
use crate::table::NameTable;
use rss_names::{Name, Seq, ServiceId, ShardId, StageId, Target};

/// What a valid pipeline file says. Every list stands in file order; `services` in the order of
/// services.
pub struct Config {
    /// The number of lost messages, 1 to 8, at which an owner gives a target up.
    pub tries: u8,
    /// The greatest number of steps in the log, 1 to 200,000.
    pub max_steps: u32,
    /// The number of drivers, 1 to 16.
    pub drivers: u8,
    pub services: Seq<ServiceDef>,
    pub registers: NameTable,
    /// The service of each register.
    pub register_services: Seq<ServiceId>,
    pub shards: NameTable,
    /// The service of each shard.
    pub shard_services: Seq<ServiceId>,
    /// The keys of all shards.
    pub keys: NameTable,
    /// The shard of each key.
    pub homes: Seq<ShardId>,
    pub pipes: NameTable,
    /// The ends of each pipe.
    pub pipe_ends: Seq<PipeEnds>,
    pub stages: NameTable,
    /// What each stage runs.
    pub bodies: Seq<Body>,
    pub withholds: Seq<Withhold>,
    pub kills: Seq<KillAt>,
}

// Written out, so that who lets a configuration go sees one call and none of its parts.
impl Drop for Config {
    fn drop(self) {
        let Config {
            tries: _tries,
            max_steps: _max_steps,
            drivers: _drivers,
            services: _services,
            registers: _registers,
            register_services: _register_services,
            shards: _shards,
            shard_services: _shard_services,
            keys: _keys,
            homes: _homes,
            pipes: _pipes,
            pipe_ends: _pipe_ends,
            stages: _stages,
            bodies: _bodies,
            withholds: _withholds,
            kills: _kills,
        } = self;
    }
}

/// A service: its name, and the number of its replicas, which is 3, 5 or 7, or 0 for a service of
/// transactions.
#[derive(Clone, Copy)]
pub struct ServiceDef {
    pub name: Name,
    pub id: ServiceId,
    pub replicas: u8,
}

/// Who puts into a pipe, who takes from it, and how many chunks it holds, 1 to 64.
#[derive(Clone, Copy)]
pub struct PipeEnds {
    pub giver: StageId,
    pub taker: StageId,
    pub capacity: u8,
}

/// What a stage runs. `earliest_end`, at most 1,000,000 microseconds, is how far ahead a
/// transaction may end at the earliest.
pub struct Body {
    pub script: Script,
    pub earliest_end: u32,
}

// Written out, so that who lets a body go sees one call and none of its parts.
impl Drop for Body {
    fn drop(self) {
        let Body {
            script: _script,
            earliest_end: _earliest_end,
        } = self;
    }
}

/// The requests of a stage to a target that are lost by order of the file: `count` of them, from
/// number `first` on, counted from 1 in the order sent.
#[derive(Clone, Copy)]
pub struct Withhold {
    pub stage: StageId,
    pub target: Target,
    pub first: u32,
    pub count: u32,
}

/// A stage that is killed by order of the file in place of its Act of that number.
#[derive(Clone, Copy)]
pub struct KillAt {
    pub stage: StageId,
    pub act: u32,
}

impl Config {
    ghost use Rattle.std.specs.Prelude.{◌≡◌};
    ghost use Rattle.pipeline_lang.specs.Config.{replicas_of};

    /// The number of replicas of a service: 0 for a service of transactions, or one that the file
    /// lacks.
    pub fn replicas(&self, service: ServiceId) -> u8
        ensures { result ≡ replicas_of self.now service }
    {
        for def in self.services.as_slice() {
            if service == def.id {
                return def.replicas;
            }
        }
        0
    }
}
