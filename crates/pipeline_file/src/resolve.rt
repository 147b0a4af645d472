//! What the names in the tables of a file mean.

ghost use Rattle.std.specs.Prelude.{◌≡◌, ◌≤◌, length, IfOk};
ghost use Rattle.std.specs.Option.{unwrap_or};
ghost use Rattle.pipeline_tables.specs.Faults.{Tells};
ghost use Rattle.pipeline_tables.specs.Limits.{HasLimits};
ghost use Rattle.pipeline_file.specs.Resolve.{number_in, service_named, replica_in, target_named, each_from, no_loops, resolved_of};

use crate::declaration::{reg_name, txn_name};
use crate::services::is_of;
use pipeline_lang::{KillAt, NameTable, PipeEnds, ServiceDef, Withhold};
use pipeline_tables::{
    FaultKind, FileError, FileFault, FileKey, FileTables, KillTable, PipeTable, Place, ServiceKind,
    ShardTable, Table, TargetName, WithholdTable,
};
use rss_names::{
    MOST_REPLICAS, MOST_SHARDS, MOST_STAGES, Name, ReplicaId, Seq, ServiceId, ShardId, StageId,
    Target,
};
use std::alloc::Global;

/// What names are looked up in.
pub struct Known {
    pub services: Seq<ServiceDef>,
    pub shards: NameTable,
    pub stages: NameTable,
}

impl Drop for Known {
    fn drop(self) {
        let Known {
            services: _services,
            shards: _shards,
            stages: _stages,
        } = self;
    }
}

impl Known {
    /// The services, and the tables of shards and of stages.
    pub fn into_parts(self) -> (Seq<ServiceDef>, NameTable, NameTable)
        ensures { result ≡ (self.services, self.shards, self.stages) }
    {
        let Known {
            services,
            shards,
            stages,
        } = self;
        (services, shards, stages)
    }
}

/// What the names in the tables of a file mean, each list in file order.
pub struct Resolved {
    pub shard_services: Seq<ServiceId>,
    pub pipe_ends: Seq<PipeEnds>,
    pub withholds: Seq<Withhold>,
    pub kills: Seq<KillAt>,
}

impl Drop for Resolved {
    fn drop(self) {
        let Resolved {
            shard_services: _shard_services,
            pipe_ends: _pipe_ends,
            withholds: _withholds,
            kills: _kills,
        } = self;
    }
}

impl Resolved {
    /// The services of shards, the ends of pipes, the withholds and the kills.
    pub fn into_parts(self) -> (Seq<ServiceId>, Seq<PipeEnds>, Seq<Withhold>, Seq<KillAt>)
        ensures { result ≡ (self.shard_services, self.pipe_ends, self.withholds, self.kills) }
    {
        let Resolved {
            shard_services,
            pipe_ends,
            withholds,
            kills,
        } = self;
        (shard_services, pipe_ends, withholds, kills)
    }
}

/// A table whose names mean something.
trait Resolve {
    ghost use Rattle.std.specs.Prelude.{ℕ, Result};
    ghost use Rattle.pipeline_tables.specs.declared.fault.FileFault.{FileFault};
    ghost use Rattle.pipeline_file.specs.declared.resolve.Known.{Known};

    type Meaning;

    ghost means: { Known → ℕ → Self → Result Self.Meaning FileFault };

    /// What the table of a number means.
    fn resolve(&self, known: &Known, number: u16) -> Result<Self::Meaning, FileFault>
        ensures { result ≡ means known.now number self.now };
}

/// The number of a stage.
#[tactic(auto, unfolding(crate::specs::Resolve::number_in))]
fn stage_named(stages: &NameTable, place: Place, name: &Name) -> Result<StageId, FileFault>
    ensures { result ≡ number_in stages.now place name.now }
{
    match stages.position(name) {
        Some(position) => {
            if position < MOST_STAGES as u16 {
                Ok(StageId::new(position as u8 + 1).unwrap())
            } else {
                Err(place.fault(FaultKind::UnknownName))
            }
        }
        None => Err(place.fault(FaultKind::UnknownName)),
    }
}

/// The number of a shard.
#[tactic(auto, unfolding(crate::specs::Resolve::number_in))]
fn shard_named(shards: &NameTable, place: Place, name: &Name) -> Result<ShardId, FileFault>
    ensures { result ≡ number_in shards.now place name.now }
{
    match shards.position(name) {
        Some(position) => {
            if position < MOST_SHARDS as u16 {
                Ok(ShardId::new(position as u8 + 1).unwrap())
            } else {
                Err(place.fault(FaultKind::UnknownName))
            }
        }
        None => Err(place.fault(FaultKind::UnknownName)),
    }
}

/// The service of a name.
#[tactic(auto, using(crate::proofs::Meanings::service_named_drop), unfolding(crate::specs::Resolve::service_named))]
fn service_named(services: &[ServiceDef], name: &Name) -> Option<ServiceDef>
    ensures { result ≡ service_named services.now name.now }
{
    for service in services {
        if *name == service.name {
            return Some(*service);
        }
    }
    None
}

/// The name that a file tells, or the default.
fn name_or(told: Option<Name>, default: Name) -> Name
    ensures { result ≡ unwrap_or told default }
{
    match told {
        Some(name) => name,
        None => default,
    }
}

impl Resolve for ShardTable {
    ghost use Rattle.pipeline_file.specs.Resolve.{shard_service};

    type Meaning = ServiceId;

    ghost means = { shard_service };

    #[tactic(auto, unfolding(crate::specs::Resolve::shard_service))]
    fn resolve(&self, known: &Known, number: u16) -> Result<ServiceId, FileFault> {
        let place = Place::key(Table::Shard, number, FileKey::Service);
        let name = name_or(self.service, txn_name());
        match service_named(known.services.as_slice(), &name) {
            Some(service) => {
                if is_of(ServiceKind::Txn, service.id) {
                    Ok(service.id)
                } else {
                    Err(place.fault(FaultKind::UnknownName))
                }
            }
            None => Err(place.fault(FaultKind::UnknownName)),
        }
    }
}

impl Resolve for PipeTable {
    ghost use Rattle.pipeline_file.specs.Resolve.{pipe_ends};

    type Meaning = PipeEnds;

    ghost means = { pipe_ends };

    #[tactic(auto, unfolding(crate::specs::Resolve::pipe_ends))]
    fn resolve(&self, known: &Known, number: u16) -> Result<PipeEnds, FileFault> {
        let from = Place::key(Table::Pipe, number, FileKey::From);
        let giver = stage_named(&known.stages, from, &self.from)?;
        let to = Place::key(Table::Pipe, number, FileKey::To);
        let taker = stage_named(&known.stages, to, &self.to)?;
        Ok(PipeEnds {
            giver,
            taker,
            capacity: self.capacity,
        })
    }
}

/// A replica of the service of a name, which is of kind reg.
fn replica_named(
    services: &[ServiceDef],
    place: Place,
    number: u8,
    name: &Name,
) -> Result<Target, FileFault>
    ensures { result ≡ replica_in place number (service_named services.now name.now) }
{
    match service_named(services, name) {
        Some(service) => {
            if is_of(ServiceKind::Reg, service.id)
                && number >= 1
                && number <= MOST_REPLICAS
                && number <= service.replicas
            {
                Ok(Target::Replica(service.id, ReplicaId::new(number).unwrap()))
            } else {
                Err(place.fault(FaultKind::UnknownName))
            }
        }
        None => Err(place.fault(FaultKind::UnknownName)),
    }
}

/// What a target means.
#[tactic(auto, unfolding(crate::specs::Resolve::target_named))]
fn target_named(known: &Known, place: Place, target: &TargetName) -> Result<Target, FileFault>
    ensures { result ≡ target_named known.now place target.now }
{
    match target {
        TargetName::Shard(name) => {
            let shard = shard_named(&known.shards, place, name)?;
            Ok(Target::Shard(shard))
        }
        TargetName::Replica(number, service) => {
            let name = name_or(*service, reg_name());
            replica_named(known.services.as_slice(), place, *number, &name)
        }
    }
}

impl Resolve for WithholdTable {
    ghost use Rattle.pipeline_file.specs.Resolve.{withhold_said};

    type Meaning = Withhold;

    ghost means = { withhold_said };

    #[tactic(auto, unfolding(crate::specs::Resolve::withhold_said))]
    fn resolve(&self, known: &Known, number: u16) -> Result<Withhold, FileFault> {
        let stage = Place::key(Table::Withhold, number, FileKey::Stage);
        let stage = stage_named(&known.stages, stage, &self.stage)?;
        let target = Place::key(Table::Withhold, number, FileKey::Target);
        let target = target_named(known, target, &self.target)?;
        Ok(Withhold {
            stage,
            target,
            first: self.from,
            count: self.count,
        })
    }
}

impl Resolve for KillTable {
    ghost use Rattle.pipeline_file.specs.Resolve.{kill_said};

    type Meaning = KillAt;

    ghost means = { kill_said };

    #[tactic(auto, unfolding(crate::specs::Resolve::kill_said))]
    fn resolve(&self, known: &Known, number: u16) -> Result<KillAt, FileFault> {
        let stage = Place::key(Table::Kill, number, FileKey::Stage);
        let stage = stage_named(&known.stages, stage, &self.stage)?;
        Ok(KillAt {
            stage,
            act: self.act,
        })
    }
}

/// What the tables of an array mean.
fn resolve_all<T: Resolve>(
    alloc: Global,
    known: &Known,
    rows: &[T],
) -> Result<Seq<T::Meaning>, FileError>
where
    T::Meaning: Drop,
    requires few { length rows.now ≤ 64 }
    ensures read { Tells result (each_from (T.means known.now) 1 rows.now) }
    ensures each { IfOk result (λ meanings. length meanings ≡ length rows.now) }
{
    let mut meanings = Seq::new(alloc);
    for (index, row) in rows.iter().enumerate() {
        let meaning = row.resolve(known, index as u16 + 1)?;
        meanings.push(meaning)?;
    }
    Ok(meanings)
}

/// Tests that no pipe leads from a stage to itself.
#[tactic(auto, using(crate::proofs::Meanings::no_loops_drop), unfolding(crate::specs::Resolve::no_loops))]
fn check_loops(pipes: &[PipeEnds]) -> Result<(), FileFault>
    requires few { length pipes.now ≤ 64 }
    ensures { result ≡ no_loops 1 pipes.now }
{
    for (index, pipe) in pipes.iter().enumerate() {
        if pipe.giver == pipe.taker {
            let to = Place::key(Table::Pipe, index as u16 + 1, FileKey::To);
            return Err(to.fault(FaultKind::PipeShape));
        }
    }
    Ok(())
}

/// What all names mean. Names that name nothing are told first, then pipes that lead from a stage
/// to itself.
#[tactic(auto, unfolding(crate::specs::Resolve::resolved_of))]
pub fn resolve_names(
    alloc: Global,
    known: &Known,
    tables: &FileTables,
) -> Result<Resolved, FileError>
    requires few { HasLimits tables.now }
    ensures { Tells result (resolved_of known.now tables.now) }
{
    let shard_services = resolve_all(alloc, known, tables.shards.as_slice())?;
    let pipe_ends = resolve_all(alloc, known, tables.pipes.as_slice())?;
    let withholds = resolve_all(alloc, known, tables.withholds.as_slice())?;
    let kills = resolve_all(alloc, known, tables.kills.as_slice())?;
    let resolved = Resolved {
        shard_services,
        pipe_ends,
        withholds,
        kills,
    };
    check_loops(resolved.pipe_ends.as_slice())?;
    Ok(resolved)
}
