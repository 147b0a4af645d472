//! Code: the tables of a pipeline file, or the first fault that can be told table by table.
#![tactic(auto)]

mod document;
mod fault;
mod keys;
mod limits;
mod lists;
mod root;
mod row;
mod rows;
mod services;
mod tables;
mod targets;
mod text;
mod values;

pub use document::read_tables;
pub use fault::{FaultKind, FileError, FileFault, FileKey, Place, Table};
pub use tables::{
    FileTables, KillTable, PipeTable, RootTable, ServiceKind, ServiceTable, ShardTable, StageTable,
    TargetName, WithholdTable,
};
