//! Lists of names, and arrays of tables.

ghost use Rattle.std.specs.Prelude.{◌≡◌, ◌≤◌, length, is_some, IfOk};
ghost use Rattle.toml.specs.Data.{as_table};
ghost use Rattle.std.specs.List.{list_all};
ghost use Rattle.toml.specs.View.{view, items_view, table_view};
ghost use Rattle.pipeline_tables.specs.Faults.{Tells, Gives};
ghost use Rattle.pipeline_tables.specs.Lists.{names_of, name_list, names_at, names_or_none, all_tables, item_count, tables_in, tables_of, tables_at, tables_or_none};

use crate::fault::{FaultKind, FileError, FileFault, Place};
use crate::keys::find;
use crate::values::name;
use rss_names::{Name, Seq};
use std::alloc::Global;
use toml::Value;

/// The names that values are.
fn names_of(alloc: Global, values: &[Value], place: Place) -> Result<Seq<Name>, FileError>
    ensures { Tells result (names_of place (items_view values.now)) }
{
    let mut names = Seq::new(alloc);
    for value in values {
        let name = name(value, place)?;
        names.push(name)?;
    }
    Ok(names)
}

/// The list of names, from `least` to `most` of them, that a value is.
#[tactic(auto, unfolding(crate::specs::Lists::name_list))]
fn name_list(
    alloc: Global,
    value: &Value,
    place: Place,
    least: usize,
    most: usize,
) -> Result<Seq<Name>, FileError>
    ensures { Tells result (name_list least most place (view value.now)) }
{
    match value.as_array() {
        Some(values) => {
            let names = names_of(alloc, values.as_slice(), place)?;
            if names.len() < least || names.len() > most {
                return Err(FileError::Fault(place.fault(FaultKind::OverLimit)));
            }
            Ok(names)
        }
        None => Err(FileError::Fault(place.fault(FaultKind::WrongKind))),
    }
}

/// The list of names at a key that must be there.
#[tactic(auto, unfolding(crate::specs::Lists::names_at))]
pub fn names_at(
    alloc: Global,
    table: &toml::Table,
    place: Place,
    least: usize,
    most: usize,
) -> Result<Seq<Name>, FileError>
    ensures { Tells result (names_at least most place (table_view table.now)) }
{
    match find(table, place.key) {
        Some(value) => name_list(alloc, value, place, least, most),
        None => Err(FileError::Fault(place.fault(FaultKind::MissingKey))),
    }
}

/// The list of names at a key whose default is the empty list.
#[tactic(auto, unfolding(crate::specs::Lists::names_or_none))]
pub fn names_or_none(
    alloc: Global,
    table: &toml::Table,
    place: Place,
    most: usize,
) -> Result<Seq<Name>, FileError>
    ensures { Tells result (names_or_none most place (table_view table.now)) }
{
    match find(table, place.key) {
        Some(value) => name_list(alloc, value, place, 0, most),
        None => Ok(Seq::new(alloc)),
    }
}

/// Whether each of these values is a table.
fn each_is_table(values: &[Value]) -> bool
    ensures { result ≡ list_all (λ value. is_some (as_table (view value))) values.now }
{
    values.iter().all(|value| value.as_table().is_some())
}

/// Whether all items are tables.
fn all_tables(values: &[Value]) -> bool
    ensures { result ≡ all_tables (items_view values.now) }
{
    each_is_table(values)
}

/// The number of items.
fn item_count(values: &[Value]) -> usize
    ensures same { result ≡ item_count (items_view values.now) }
    ensures long { result ≡ length values.now }
{
    values.len()
}

/// The tables, from `least` to `most` of them, that these values are.
fn tables_in(
    values: &[Value],
    place: Place,
    least: usize,
    most: usize,
) -> Result<&[Value], FileFault>
    ensures same { Gives (λ tables. items_view tables.now) result (tables_in least most place (items_view values.now)) }
    ensures few { IfOk result (λ tables. length tables.now ≤ most) }
{
    if !all_tables(values) {
        return Err(place.fault(FaultKind::WrongKind));
    }
    let count = item_count(values);
    if count < least || count > most {
        return Err(place.fault(FaultKind::OverLimit));
    }
    Ok(values)
}

/// The array of tables, from `least` to `most` of them, that a value is.
#[tactic(auto, unfolding(crate::specs::Lists::tables_of))]
fn tables_of(value: &Value, place: Place, least: usize, most: usize) -> Result<&[Value], FileFault>
    ensures same { Gives (λ tables. items_view tables.now) result (tables_of least most place (view value.now)) }
    ensures few { IfOk result (λ tables. length tables.now ≤ most) }
{
    match value.as_array() {
        Some(values) => tables_in(values.as_slice(), place, least, most),
        None => Err(place.fault(FaultKind::WrongKind)),
    }
}

/// The array of tables at a key that must be there.
#[tactic(auto, unfolding(crate::specs::Lists::tables_at))]
pub fn tables_at(
    root: &toml::Table,
    place: Place,
    least: usize,
    most: usize,
) -> Result<&[Value], FileFault>
    ensures same { Gives (λ values. items_view values.now) result (tables_at least most place (table_view root.now)) }
    ensures few { IfOk result (λ values. length values.now ≤ most) }
{
    match find(root, place.key) {
        Some(value) => tables_of(value, place, least, most),
        None => Err(place.fault(FaultKind::MissingKey)),
    }
}

/// The array of tables at a key that need not be there.
#[tactic(auto, unfolding(crate::specs::Lists::tables_or_none))]
pub fn tables_or_none(root: &toml::Table, place: Place, most: usize) -> Result<&[Value], FileFault>
    ensures same { Gives (λ values. items_view values.now) result (tables_or_none most place (table_view root.now)) }
    ensures few { IfOk result (λ values. length values.now ≤ most) }
{
    match find(root, place.key) {
        Some(value) => tables_of(value, place, 0, most),
        None => Ok(&[]),
    }
}
