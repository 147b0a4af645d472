//! The tables of further services, whose registers count with all others of the file.

ghost use Rattle.std.specs.Prelude.{◌≡◌, ◌≤◌, ◌-◌, length, IfOk};
ghost use Rattle.toml.specs.View.{view, items_view, table_view};
ghost use Rattle.pipeline_tables.specs.Faults.{Tells};
ghost use Rattle.pipeline_tables.specs.Rows.{kind_at, most_registers, service_of};
ghost use Rattle.pipeline_tables.specs.Lists.{row_in};
ghost use Rattle.pipeline_tables.specs.Services.{services_from};

use crate::fault::{FaultKind, FileError, FileFault, FileKey, Place, Table};
use crate::keys::check_keys;
use crate::lists::names_or_none;
use crate::tables::{RootTable, ServiceKind, ServiceTable};
use crate::values::{name_at, replicas_or, text_at};
use rss_names::{MOST_REGISTERS, Seq};
use std::alloc::Global;
use toml::Value;

/// The kind of a service at a key that must be there.
#[tactic(auto, unfolding(crate::specs::Rows::kind_at))]
fn kind_at(table: &toml::Table, place: Place) -> Result<ServiceKind, FileFault>
    ensures { result ≡ kind_at place (table_view table.now) }
{
    let text = text_at(table, place)?.as_bytes();
    if text == b"txn".as_slice() {
        Ok(ServiceKind::Txn)
    } else if text == b"reg".as_slice() {
        Ok(ServiceKind::Reg)
    } else {
        Err(place.fault(FaultKind::WrongKind))
    }
}

/// How many registers a service of a kind may have, where there is room for so many.
fn most_registers(kind: ServiceKind, room: usize) -> usize
    ensures { result ≡ most_registers kind room }
{
    match kind {
        ServiceKind::Txn => 0,
        ServiceKind::Reg => room,
    }
}

/// Reads the service of a number; the file has room for so many registers.
#[tactic(auto, unfolding(crate::specs::Rows::service_of))]
fn read_service(
    alloc: Global,
    root: &RootTable,
    room: usize,
    number: u16,
    table: &toml::Table,
) -> Result<ServiceTable, FileError>
    ensures { Tells result (service_of root.now room number (table_view table.now)) }
{
    let keys = [
        FileKey::Name,
        FileKey::Kind,
        FileKey::Registers,
        FileKey::Replicas,
    ];
    check_keys(&keys, Table::Service, number, table)?;
    let name = name_at(table, Place::key(Table::Service, number, FileKey::Name))?;
    let kind = kind_at(table, Place::key(Table::Service, number, FileKey::Kind))?;
    let most = most_registers(kind, room);
    let registers = names_or_none(
        alloc,
        table,
        Place::key(Table::Service, number, FileKey::Registers),
        most,
    )?;
    let replicas = replicas_or(
        table,
        Place::key(Table::Service, number, FileKey::Replicas),
        root.replicas,
    )?;
    Ok(ServiceTable {
        name,
        kind,
        registers,
        replicas,
    })
}

/// Reads the service that a value is.
fn service_in(
    alloc: Global,
    root: &RootTable,
    room: usize,
    number: u16,
    value: &Value,
    place: Place,
) -> Result<ServiceTable, FileError>
    ensures { Tells result (row_in (service_of root.now room) place number (view value.now)) }
{
    match value.as_table() {
        Some(table) => read_service(alloc, root, room, number, table),
        None => Err(FileError::Fault(place.fault(FaultKind::WrongKind))),
    }
}

/// Reads the services of an array at a place of the root.
pub fn services(
    alloc: Global,
    root: &RootTable,
    values: &[Value],
    place: Place,
) -> Result<Seq<ServiceTable>, FileError>
    requires few { length values.now ≤ 64 }
    ensures read { Tells result (services_from root.now place (64 - length root.now.registers) 1 (items_view values.now)) }
    ensures each { IfOk result (λ services. length services ≡ length values.now) }
{
    let mut services = Seq::new(alloc);
    let mut room = MOST_REGISTERS.saturating_sub(root.registers.len());
    for (index, value) in values.iter().enumerate() {
        let service = service_in(alloc, root, room, index as u16 + 1, value, place)?;
        room = room.saturating_sub(service.registers.len());
        services.push(service)?;
    }
    Ok(services)
}
