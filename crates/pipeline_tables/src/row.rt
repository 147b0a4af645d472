//! The tables of an array, one behind another.

ghost use Rattle.std.specs.Prelude.{◌≡◌, ◌≤◌, length, IfOk};
ghost use Rattle.toml.specs.View.{view, items_view, table_view};
ghost use Rattle.pipeline_tables.specs.Faults.{Tells};
ghost use Rattle.pipeline_tables.specs.Lists.{row_in, rows_from};

use crate::fault::{FaultKind, FileError, Place};
use crate::tables::RootTable;
use rss_names::Seq;
use std::alloc::Global;
use toml::Value;

/// What a table of an array says.
pub trait Row: Sized {
    ghost use Rattle.std.specs.Prelude.{ℕ, Result};
    ghost use Rattle.toml.specs.Data.{Members};
    ghost use Rattle.pipeline_tables.specs.declared.fault.FileFault.{FileFault};
    ghost use Rattle.pipeline_tables.specs.declared.tables.RootTable.{RootTable};

    ghost says: { RootTable → ℕ → Members → Result Self FileFault };

    /// Reads the table of a number, counted from 1.
    fn read(
        alloc: Global,
        root: &RootTable,
        number: u16,
        table: &toml::Table,
    ) -> Result<Self, FileError>
        ensures { Tells result (says root.now number (table_view table.now)) };
}

/// Reads the table that a value is.
fn read_row<R: Row + Drop>(
    alloc: Global,
    root: &RootTable,
    number: u16,
    value: &Value,
    place: Place,
) -> Result<R, FileError>
    ensures { Tells result (row_in (R.says root.now) place number (view value.now)) }
{
    match value.as_table() {
        Some(table) => R::read(alloc, root, number, table),
        None => Err(FileError::Fault(place.fault(FaultKind::WrongKind))),
    }
}

/// Reads the tables of an array at a place of the root.
pub fn rows<R: Row + Drop>(
    alloc: Global,
    root: &RootTable,
    values: &[Value],
    place: Place,
) -> Result<Seq<R>, FileError>
    requires few { length values.now ≤ 64 }
    ensures read { Tells result (rows_from (R.says root.now) place 1 (items_view values.now)) }
    ensures each { IfOk result (λ rows. length rows ≡ length values.now) }
{
    let mut rows = Seq::new(alloc);
    for (index, value) in values.iter().enumerate() {
        let row: R = read_row(alloc, root, index as u16 + 1, value, place)?;
        rows.push(row)?;
    }
    Ok(rows)
}
