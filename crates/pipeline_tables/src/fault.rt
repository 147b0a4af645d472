//! What is wrong with a pipeline file, and where.

ghost use Rattle.std.specs.Prelude.{◌≡◌};
ghost use Rattle.pipeline_tables.specs.Faults.{key_place, fault};

use std::alloc::{AllocError, AllocFailed};
use thiserror::Error;

/// What is wrong with a pipeline file.
#[derive(Clone, Copy, Debug, PartialEq, Eq)]
pub enum FaultKind {
    /// A number or a length is outside its range.
    OverLimit,
    /// The bytes are no TOML document.
    NotToml,
    /// A table has a key that is none of its own.
    UnknownKey,
    /// A key without a default is not there.
    MissingKey,
    /// A value is of another type or form than its key's.
    WrongKind,
    /// A name stands twice where names must differ.
    DoubleName,
    /// A name names nothing of its kind.
    UnknownName,
    /// The keys of one statement belong to two services.
    ServiceShape,
    /// A pipe leads from a stage to itself, or is used by a stage that is not at that end of it.
    PipeShape,
    /// A script is off the grammar.
    Syntax,
    /// A stage is spawned or waited for where that cannot be.
    SpawnShape,
}

/// The kinds of table in a pipeline file; `File` is the whole file.
#[derive(Clone, Copy, Debug, PartialEq, Eq)]
pub enum Table {
    File,
    Root,
    Shard,
    Pipe,
    Stage,
    Withhold,
    Kill,
    Service,
}

/// The keys of a pipeline file: `Absent` stands where no key is meant, `Unknown` for a key that
/// the table does not have.
#[derive(Clone, Copy, Debug, PartialEq, Eq)]
pub enum FileKey {
    Absent,
    Unknown,
    Tries,
    MaxSteps,
    EarliestEnd,
    Replicas,
    Registers,
    Drivers,
    Shard,
    Pipe,
    Stage,
    Withhold,
    Kill,
    Service,
    Name,
    Kind,
    Keys,
    From,
    To,
    Capacity,
    Script,
    Target,
    Count,
    Act,
}

/// Where a fault is: a table by its kind and its number from 1 (0 for the file and its root), a
/// key of it, and in a script the statement and the column of its line, both counted from 1, or 0
/// where the fault is not in a statement.
#[derive(Clone, Copy, Debug, PartialEq, Eq)]
pub struct Place {
    pub table: Table,
    pub number: u16,
    pub key: FileKey,
    pub statement: u64,
    pub column: u64,
}

/// A fault and its place.
#[derive(Clone, Copy, Debug, PartialEq, Eq, Error)]
#[error("fault in a pipeline file")]
pub struct FileFault {
    pub kind: FaultKind,
    pub place: Place,
}

/// Why a pipeline file is refused.
#[derive(Clone, Copy, Debug, PartialEq, Eq, Error)]
pub enum FileError {
    /// The first fault of the file.
    #[error("fault in a pipeline file")]
    Fault(FileFault),
    /// Memory is wanting.
    #[error("out of memory")]
    OutOfMemory,
}

impl Place {
    /// The place of a key of a table.
    pub fn key(table: Table, number: u16, key: FileKey) -> Place
        ensures { result ≡ key_place table number key }
    {
        Place {
            table,
            number,
            key,
            statement: 0,
            column: 0,
        }
    }

    /// The fault of a kind at this place.
    pub fn fault(self, kind: FaultKind) -> FileFault
        ensures { result ≡ fault kind self }
    {
        FileFault { kind, place: self }
    }
}

impl From<FileFault> for FileError {
    ghost use Rattle.pipeline_tables.specs.declared.fault.FileError.TheVariants.{Fault};

    ghost from_gives = { λ fault e. e ≡ Fault fault };

    fn from(fault: FileFault) -> FileError {
        FileError::Fault(fault)
    }
}

impl From<AllocError> for FileError {
    ghost use Rattle.pipeline_tables.specs.declared.fault.FileError.TheVariants.{OutOfMemory};

    ghost from_gives = { λ _ e. e ≡ OutOfMemory };

    fn from(_refused: AllocError) -> FileError {
        FileError::OutOfMemory
    }
}

impl<T: Drop> From<AllocFailed<T>> for FileError {
    ghost use Rattle.pipeline_tables.specs.declared.fault.FileError.TheVariants.{OutOfMemory};

    ghost from_gives = { λ _ e. e ≡ OutOfMemory };

    fn from(_refused: AllocFailed<T>) -> FileError {
        FileError::OutOfMemory
    }
}
