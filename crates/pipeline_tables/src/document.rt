//! All tables of a file.

ghost use Rattle.std.specs.Prelude.{◌≡◌, ◌≤◌, length, IfOk};
ghost use Rattle.toml.specs.View.{table_view};
ghost use Rattle.pipeline_tables.specs.Faults.{Tells};
ghost use Rattle.pipeline_tables.specs.Limits.{HasLimits};
ghost use Rattle.pipeline_tables.specs.Services.{tables_said, array_place, rows_or_none, rows_at, further_services};

use crate::fault::{FileError, FileKey, Place, Table};
use crate::limits::{MOST_FURTHER, MOST_WITHHOLDS};
use crate::lists::{tables_at, tables_or_none};
use crate::root::read_root;
use crate::row::{Row, rows};
use crate::services::services;
use crate::tables::{FileTables, RootTable, ServiceTable};
use rss_names::{MOST_PIPES, MOST_SHARDS, MOST_STAGES, Seq};
use std::alloc::Global;

/// Where an array of tables stands.
fn array_place(key: FileKey) -> Place
    ensures { result ≡ array_place key }
{
    Place::key(Table::Root, 0, key)
}

/// Reads the tables of an array of the root that need not be there, and has this many at most.
#[tactic(auto, unfolding(crate::specs::Services::rows_or_none))]
fn rows_or_none<R: Row + Drop>(
    alloc: Global,
    root: &RootTable,
    document: &toml::Table,
    key: FileKey,
    most: usize,
) -> Result<Seq<R>, FileError>
    requires limit { most ≤ 64 }
    ensures read { Tells result (rows_or_none (R.says root.now) most key (table_view document.now)) }
    ensures few { IfOk result (λ rows. length rows ≤ most) }
{
    let place = array_place(key);
    rows(alloc, root, tables_or_none(document, place, most)?, place)
}

/// Reads the tables of an array of the root that has one table at least.
#[tactic(auto, unfolding(crate::specs::Services::rows_at))]
fn rows_at<R: Row + Drop>(
    alloc: Global,
    root: &RootTable,
    document: &toml::Table,
    key: FileKey,
    most: usize,
) -> Result<Seq<R>, FileError>
    requires limit { most ≤ 64 }
    ensures read { Tells result (rows_at (R.says root.now) most key (table_view document.now)) }
    ensures few { IfOk result (λ rows. length rows ≤ most) }
{
    let place = array_place(key);
    rows(alloc, root, tables_at(document, place, 1, most)?, place)
}

/// Reads the further services.
#[tactic(auto, unfolding(crate::specs::Services::further_services))]
fn further_services(
    alloc: Global,
    root: &RootTable,
    document: &toml::Table,
) -> Result<Seq<ServiceTable>, FileError>
    ensures read { Tells result (further_services root.now (table_view document.now)) }
    ensures few { IfOk result (λ rows. length rows ≤ 6) }
{
    let place = array_place(FileKey::Service);
    services(
        alloc,
        root,
        tables_or_none(document, place, MOST_FURTHER)?,
        place,
    )
}

/// Reads all tables of a document, or tells its first fault: the root's own keys first, then array
/// by array and table by table. In a table an unknown key is told first, and then key by key one
/// that is missing, of the wrong kind, or over its limit.
#[tactic(auto, unfolding(crate::specs::Services::tables_said))]
pub fn read_tables(alloc: Global, document: &toml::Table) -> Result<FileTables, FileError>
    ensures read { Tells result (tables_said (table_view document.now)) }
    ensures few { IfOk result HasLimits }
{
    let root = read_root(alloc, document)?;
    let shards = rows_or_none(alloc, &root, document, FileKey::Shard, MOST_SHARDS as usize)?;
    let pipes = rows_or_none(alloc, &root, document, FileKey::Pipe, MOST_PIPES as usize)?;
    let stages = rows_at(alloc, &root, document, FileKey::Stage, MOST_STAGES as usize)?;
    let withholds = rows_or_none(alloc, &root, document, FileKey::Withhold, MOST_WITHHOLDS)?;
    let kills = rows_or_none(alloc, &root, document, FileKey::Kill, MOST_STAGES as usize)?;
    let services = further_services(alloc, &root, document)?;
    Ok(FileTables {
        root,
        shards,
        pipes,
        stages,
        withholds,
        kills,
        services,
    })
}
