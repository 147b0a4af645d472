//! The names that a file declares, each where it does.

ghost use Rattle.std.specs.Prelude.{◌≡◌, ◌≤◌, ◌++◌, [], ◌∷◌, length, codes, OnOk, IfOk};
ghost use Rattle.pipeline_tables.specs.Limits.{HasLimits};
ghost use Rattle.pipeline_file.specs.Declarations.{declare, declare_all, gather, declarations};

use pipeline_tables::{
    FileKey, FileTables, KillTable, PipeTable, Place, ServiceTable, ShardTable, StageTable, Table,
};
use rss_names::{Name, Seq};
use std::alloc::{AllocError, Global};

/// What a name stands for. Registers, shards, keys, pipes and stages share one set of names; the
/// stages that are killed, and the services, are two sets of their own.
#[derive(Clone, Copy, PartialEq, Eq)]
pub enum NameKind {
    Register,
    Shard,
    Key,
    Pipe,
    Stage,
    Killed,
    Service,
}

/// A set of names that must differ.
#[derive(Clone, Copy)]
pub enum NameSet {
    Shared,
    Killed,
    Services,
}

/// A name where a file declares it.
#[derive(Clone, Copy)]
pub struct Declaration {
    pub kind: NameKind,
    pub name: Name,
    pub place: Place,
}

/// A table that declares names.
trait Declares {
    ghost use Rattle.std.specs.Prelude.{ℕ, List};
    ghost use Rattle.pipeline_file.specs.declared.declaration.Declaration.{Declaration};

    ghost declared: { ℕ → Self → List Declaration };

    /// Adds what the table of a number declares.
    fn declare(&self, number: u16, list: &mut Seq<Declaration>) -> Result<(), AllocError>
        ensures { OnOk result (list.new ≡ list.old ++ declared number self.now) };
}

/// Adds a declaration.
fn declare(
    list: &mut Seq<Declaration>,
    kind: NameKind,
    place: Place,
    name: Name,
) -> Result<(), AllocError>
    ensures { OnOk result (list.new ≡ list.old ++ declare kind place name ∷ []) }
{
    list.push(Declaration { kind, name, place })?;
    Ok(())
}

/// Adds declarations at one place.
fn declare_all(
    list: &mut Seq<Declaration>,
    kind: NameKind,
    place: Place,
    names: &[Name],
) -> Result<(), AllocError>
    ensures { OnOk result (list.new ≡ list.old ++ declare_all kind place names.now) }
{
    for name in names {
        declare(list, kind, place, *name)?;
    }
    Ok(())
}

impl Declares for ServiceTable {
    ghost use Rattle.pipeline_file.specs.Declarations.{service_declares};

    ghost declared = { service_declares };

    fn declare(&self, number: u16, list: &mut Seq<Declaration>) -> Result<(), AllocError> {
        let registers = Place::key(Table::Service, number, FileKey::Registers);
        declare_all(
            list,
            NameKind::Register,
            registers,
            self.registers.as_slice(),
        )?;
        let name = Place::key(Table::Service, number, FileKey::Name);
        declare(list, NameKind::Service, name, self.name)
    }
}

impl Declares for ShardTable {
    ghost use Rattle.pipeline_file.specs.Declarations.{shard_declares};

    ghost declared = { shard_declares };

    fn declare(&self, number: u16, list: &mut Seq<Declaration>) -> Result<(), AllocError> {
        let name = Place::key(Table::Shard, number, FileKey::Name);
        declare(list, NameKind::Shard, name, self.name)?;
        let keys = Place::key(Table::Shard, number, FileKey::Keys);
        declare_all(list, NameKind::Key, keys, self.keys.as_slice())
    }
}

impl Declares for PipeTable {
    ghost use Rattle.pipeline_file.specs.Declarations.{pipe_declares};

    ghost declared = { pipe_declares };

    fn declare(&self, number: u16, list: &mut Seq<Declaration>) -> Result<(), AllocError> {
        let name = Place::key(Table::Pipe, number, FileKey::Name);
        declare(list, NameKind::Pipe, name, self.name)
    }
}

impl Declares for StageTable {
    ghost use Rattle.pipeline_file.specs.Declarations.{stage_declares};

    ghost declared = { stage_declares };

    fn declare(&self, number: u16, list: &mut Seq<Declaration>) -> Result<(), AllocError> {
        let name = Place::key(Table::Stage, number, FileKey::Name);
        declare(list, NameKind::Stage, name, self.name)
    }
}

impl Declares for KillTable {
    ghost use Rattle.pipeline_file.specs.Declarations.{kill_declares};

    ghost declared = { kill_declares };

    fn declare(&self, number: u16, list: &mut Seq<Declaration>) -> Result<(), AllocError> {
        let stage = Place::key(Table::Kill, number, FileKey::Stage);
        declare(list, NameKind::Killed, stage, self.stage)
    }
}

/// The service of transactions that every file has.
#[tactic(auto, unfolding(rss_names::specs::Names::is_name))]
pub fn txn_name() -> Name
    ensures { result ≡ codes "txn" }
{
    Name::read(b"txn").unwrap()
}

/// The service of registers that every file has.
#[tactic(auto, unfolding(rss_names::specs::Names::is_name))]
pub fn reg_name() -> Name
    ensures { result ≡ codes "reg" }
{
    Name::read(b"reg").unwrap()
}

/// Adds what the tables of an array declare.
fn gather<T: Declares>(list: &mut Seq<Declaration>, rows: &[T]) -> Result<(), AllocError>
    requires few { length rows.now ≤ 64 }
    ensures { OnOk result (list.new ≡ list.old ++ gather T.declared 1 rows.now) }
{
    for (index, row) in rows.iter().enumerate() {
        row.declare(index as u16 + 1, list)?;
    }
    Ok(())
}

/// Adds all that a file declares, each kind in file order, to an empty list.
#[tactic(auto, unfolding(crate::specs::Declarations::declarations))]
fn add_declarations(list: &mut Seq<Declaration>, tables: &FileTables) -> Result<(), AllocError>
    requires empty { list.old ≡ [] }
    requires few { HasLimits tables.now }
    ensures { OnOk result (list.new ≡ declarations tables.now) }
{
    let nowhere = Place::key(Table::File, 0, FileKey::Absent);
    declare(list, NameKind::Service, nowhere, txn_name())?;
    declare(list, NameKind::Service, nowhere, reg_name())?;
    let registers = Place::key(Table::Root, 0, FileKey::Registers);
    declare_all(
        list,
        NameKind::Register,
        registers,
        tables.root.registers.as_slice(),
    )?;
    gather(list, tables.services.as_slice())?;
    gather(list, tables.shards.as_slice())?;
    gather(list, tables.pipes.as_slice())?;
    gather(list, tables.stages.as_slice())?;
    gather(list, tables.kills.as_slice())
}

/// All that a file declares, each kind in file order.
pub fn declarations(alloc: Global, tables: &FileTables) -> Result<Seq<Declaration>, AllocError>
    requires few { HasLimits tables.now }
    ensures { IfOk result (λ list. list ≡ declarations tables.now) }
{
    let mut list = Seq::new(alloc);
    add_declarations(&mut list, tables)?;
    Ok(list)
}
