//! What the root of a file says.

ghost use Rattle.toml.specs.View.{table_view};
ghost use Rattle.pipeline_tables.specs.Faults.{Tells};
ghost use Rattle.pipeline_tables.specs.Rows.{root_of};

use crate::fault::{FileError, FileKey, Place, Table};
use crate::keys::check_keys;
use crate::limits::{LONGEST_END, MOST_TRIES};
use crate::lists::names_or_none;
use crate::tables::RootTable;
use crate::values::{number_or, optional_number, replicas_or};
use rss_names::{MOST_REGISTERS, MOST_STAGES, MOST_STEPS};
use std::alloc::Global;

/// The root's own keys.
#[tactic(auto, unfolding(crate::specs::Rows::root_of))]
pub fn read_root(alloc: Global, table: &toml::Table) -> Result<RootTable, FileError>
    ensures { Tells result (root_of (table_view table.now)) }
{
    let keys = [
        FileKey::Tries,
        FileKey::MaxSteps,
        FileKey::EarliestEnd,
        FileKey::Replicas,
        FileKey::Registers,
        FileKey::Drivers,
        FileKey::Shard,
        FileKey::Pipe,
        FileKey::Stage,
        FileKey::Withhold,
        FileKey::Kill,
        FileKey::Service,
    ];
    check_keys(&keys, Table::Root, 0, table)?;
    let tries = number_or(
        table,
        Place::key(Table::Root, 0, FileKey::Tries),
        1,
        MOST_TRIES,
        3,
    )?;
    let max_steps = number_or(
        table,
        Place::key(Table::Root, 0, FileKey::MaxSteps),
        1,
        MOST_STEPS,
        100_000,
    )?;
    let earliest_end = number_or(
        table,
        Place::key(Table::Root, 0, FileKey::EarliestEnd),
        0,
        LONGEST_END,
        2_000,
    )?;
    let replicas = replicas_or(table, Place::key(Table::Root, 0, FileKey::Replicas), 3)?;
    let registers = names_or_none(
        alloc,
        table,
        Place::key(Table::Root, 0, FileKey::Registers),
        MOST_REGISTERS,
    )?;
    let drivers = optional_number(
        table,
        Place::key(Table::Root, 0, FileKey::Drivers),
        1,
        MOST_STAGES as u32,
    )?;
    Ok(RootTable {
        tries: tries as u8,
        max_steps,
        earliest_end,
        replicas,
        registers,
        drivers: drivers.map(|drivers| drivers as u8),
    })
}
