//! What a file declares.

ghost use Rattle.std.specs.Prelude.{◌≡◌, [], None, IfOk};
ghost use Rattle.pipeline_tables.specs.Faults.{Tells};
ghost use Rattle.pipeline_tables.specs.Limits.{HasLimits};
ghost use Rattle.pipeline_file.specs.declared.declaration.NameKind.TheVariants.{Register, Key, Pipe};
ghost use Rattle.pipeline_file.specs.declared.declaration.NameSet.TheVariants.{Shared};
ghost use Rattle.pipeline_file.specs.Declarations.{declarations};
ghost use Rattle.pipeline_file.specs.Doubles.{first_double, names_of};
ghost use Rattle.pipeline_file.specs.Document.{assembled};
ghost use Rattle.pipeline_file.specs.NameTables.{all_declared, declared_of};

use crate::declaration::{Declaration, NameKind, declarations};
use crate::doubles::{check_doubles, table_of};
use crate::resolve::{Known, Resolved};
use crate::services::{homes, register_services, services};
use pipeline_lang::{Body, Config, NameTable};
use pipeline_tables::{FileError, FileTables};
use rss_names::{Seq, ServiceId, ShardId};
use std::alloc::{AllocError, Global};

/// What a file declares: its services, the tables of its names, and what belongs to which.
pub struct Declared {
    pub known: Known,
    pub registers: NameTable,
    pub register_services: Seq<ServiceId>,
    pub keys: NameTable,
    pub homes: Seq<ShardId>,
    pub pipes: NameTable,
}

impl Drop for Declared {
    fn drop(self) {
        let Declared {
            known: _known,
            registers: _registers,
            register_services: _register_services,
            keys: _keys,
            homes: _homes,
            pipes: _pipes,
        } = self;
    }
}

impl Declared {
    /// The configuration of these parts. Drivers are as many as stages where the file tells no
    /// number.
    #[tactic(auto, unfolding(crate::specs::Document::assembled))]
    pub fn assemble(self, tables: &FileTables, resolved: Resolved, bodies: Seq<Body>) -> Config
        requires few { HasLimits tables.now }
        ensures { result ≡ assembled tables.now self resolved bodies }
    {
        let root = &tables.root;
        let drivers = match root.drivers {
            Some(drivers) => drivers,
            None => tables.stages.len() as u8,
        };
        let Declared {
            known,
            registers,
            register_services,
            keys,
            homes,
            pipes,
        } = self;
        let (services, shards, stages) = known.into_parts();
        let (shard_services, pipe_ends, withholds, kills) = resolved.into_parts();
        Config {
            tries: root.tries,
            max_steps: root.max_steps,
            drivers,
            services,
            registers,
            register_services,
            shards,
            shard_services,
            keys,
            homes,
            pipes,
            pipe_ends,
            stages,
            bodies,
            withholds,
            kills,
        }
    }
}

/// The tables of names that stand beside the known ones.
#[derive(Drop)]
struct NameParts {
    registers: NameTable,
    keys: NameTable,
    pipes: NameTable,
}

/// What other tables refer to.
#[tactic(auto, unfolding(crate::specs::NameTables::all_declared))]
fn known_names(
    alloc: Global,
    tables: &FileTables,
    list: &[Declaration],
) -> Result<Known, AllocError>
    requires few { HasLimits tables.now }
    requires all { list.now ≡ declarations tables.now }
    requires alone { first_double Shared [] list.now ≡ None }
    ensures { IfOk result (λ known. known ≡ (all_declared tables.now).known) }
{
    let services = services(alloc, tables)?;
    let shards = table_of(alloc, list, NameKind::Shard)?;
    let stages = table_of(alloc, list, NameKind::Stage)?;
    Ok(Known {
        services,
        shards,
        stages,
    })
}

/// The tables of registers, keys and pipes.
fn name_parts(alloc: Global, list: &[Declaration]) -> Result<NameParts, AllocError>
    requires alone { first_double Shared [] list.now ≡ None }
    ensures registers { IfOk result (λ parts. parts.registers ≡ names_of Register list.now) }
    ensures keys { IfOk result (λ parts. parts.keys ≡ names_of Key list.now) }
    ensures pipes { IfOk result (λ parts. parts.pipes ≡ names_of Pipe list.now) }
{
    let registers = table_of(alloc, list, NameKind::Register)?;
    let keys = table_of(alloc, list, NameKind::Key)?;
    let pipes = table_of(alloc, list, NameKind::Pipe)?;
    Ok(NameParts {
        registers,
        keys,
        pipes,
    })
}

/// What a file declares, where no shared name is declared twice.
#[tactic(auto, unfolding(crate::specs::NameTables::all_declared))]
fn all_declared(
    alloc: Global,
    tables: &FileTables,
    list: &[Declaration],
) -> Result<Declared, AllocError>
    requires few { HasLimits tables.now }
    requires all { list.now ≡ declarations tables.now }
    requires alone { first_double Shared [] list.now ≡ None }
    ensures { IfOk result (λ declared. declared ≡ all_declared tables.now) }
{
    let register_services = register_services(alloc, tables)?;
    let homes = homes(alloc, tables.shards.as_slice())?;
    let known = known_names(alloc, tables, list)?;
    let NameParts {
        registers,
        keys,
        pipes,
    } = name_parts(alloc, list)?;
    Ok(Declared {
        known,
        registers,
        register_services,
        keys,
        homes,
        pipes,
    })
}

/// What a file declares; a name that is declared twice is told at its second place.
#[tactic(auto, unfolding(crate::specs::NameTables::declared_of))]
pub fn declare_names(alloc: Global, tables: &FileTables) -> Result<Declared, FileError>
    requires few { HasLimits tables.now }
    ensures { Tells result (declared_of tables.now) }
{
    let list = declarations(alloc, tables)?;
    check_doubles(alloc, list.as_slice())?;
    Ok(all_declared(alloc, tables, list.as_slice())?)
}
