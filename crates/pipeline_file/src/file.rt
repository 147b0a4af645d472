//! The configuration that a pipeline file says.

ghost use Rattle.std.specs.Prelude.{◌≡◌, IfOk, IfErr, Ok};
ghost use Rattle.toml.specs.View.{table_view};
ghost use Rattle.pipeline_tables.specs.Faults.{Tells, TellsOf, IsFault};
ghost use Rattle.toml.specs.Parse.{parse_document};
ghost use Rattle.pipeline_tables.specs.Limits.{HasLimits};
ghost use Rattle.pipeline_file.specs.Document.{whole, short, some_document, document_of, tables_mean, config_of};

use crate::declared_names::declare_names;
use crate::resolve::resolve_names;
use crate::scripts::read_bodies;
use pipeline_lang::Config;
use pipeline_tables::{
    FaultKind, FileError, FileFault, FileKey, FileTables, Place, Table, read_tables,
};
use std::alloc::Global;

/// The greatest number of bytes of a file.
const MOST: usize = 1_048_576;

/// The whole file.
fn whole() -> Place
    ensures { result ≡ whole }
{
    Place::key(Table::File, 0, FileKey::Absent)
}

/// Tests that a file is not too long.
fn check_length(bytes: &[u8]) -> Result<(), FileFault>
    ensures { result ≡ short bytes.now }
{
    if bytes.len() <= MOST {
        Ok(())
    } else {
        Err(whole().fault(FaultKind::OverLimit))
    }
}

/// The document that a text is.
fn parse_text(alloc: Global, text: &str) -> Result<toml::Table, FileError>
    ensures { TellsOf table_view result (some_document (parse_document text.now)) }
{
    match toml::table_from_str(alloc, text) {
        Ok(table) => Ok(table),
        Err(error) => {
            if error.is_memory() {
                Err(FileError::OutOfMemory)
            } else {
                Err(FileError::Fault(whole().fault(FaultKind::NotToml)))
            }
        }
    }
}

/// The TOML document that bytes are.
fn parse_bytes(alloc: Global, bytes: &[u8]) -> Result<toml::Table, FileError>
    ensures { TellsOf table_view result (document_of bytes.now) }
{
    match std::str::from_utf8(bytes) {
        Ok(text) => parse_text(alloc, text),
        Err(_) => Err(FileError::Fault(whole().fault(FaultKind::NotToml))),
    }
}

/// What tables say.
#[tactic(auto, unfolding(crate::specs::Document::tables_mean))]
fn read_meaning(alloc: Global, tables: &FileTables) -> Result<Config, FileError>
    requires few { HasLimits tables.now }
    ensures { Tells result (tables_mean tables.now) }
{
    let declared = declare_names(alloc, tables)?;
    let resolved = resolve_names(alloc, &declared.known, tables)?;
    let bodies = read_bodies(alloc, &declared, &resolved, tables.stages.as_slice())?;
    Ok(declared.assemble(tables, resolved, bodies))
}

/// The configuration that a pipeline file says, or its first fault. The order is: the file's length,
/// the TOML document, the tables one by one, names that are declared twice, names that name nothing,
/// pipes that lead from a stage to itself, then the scripts stage by stage, and last how much they
/// do. Where memory is wanting it may tell `OutOfMemory` in place of either.
#[tactic(auto, unfolding(crate::specs::Document::config_of))]
pub fn read(alloc: Global, bytes: &[u8]) -> Result<Config, FileError>
    ensures said { IfOk result (λ config. config_of bytes.now ≡ Ok config) }
    ensures refused { IfErr result (λ e. IsFault e (config_of bytes.now)) }
{
    check_length(bytes)?;
    let document = parse_bytes(alloc, bytes)?;
    let tables = read_tables(alloc, &document)?;
    read_meaning(alloc, &tables)
}
