//! The services of a file, and what belongs to which.

ghost use Rattle.std.specs.Prelude.{◌≡◌, ◌≤◌, ◌<◌, ◌+◌, ◌++◌, [], ◌∷◌, length, OnOk, IfOk};
ghost use Rattle.pipeline_tables.specs.Limits.{HasLimits};
ghost use Rattle.pipeline_file.specs.Services.{for_each, further_one, next_txn, next_reg, further_from, owners_from, register_services, is_of, those_of, services_of, homes_from};

use crate::declaration::{reg_name, txn_name};
use pipeline_lang::ServiceDef;
use pipeline_tables::{FileTables, ServiceKind, ServiceTable, ShardTable};
use rss_names::{Name, Seq, ServiceId, ShardId};
use std::alloc::{AllocError, Global};

/// The service that a table adds, where the next one of kind txn, or reg, has this number.
fn further_one(txn: u8, reg: u8, table: &ServiceTable) -> ServiceDef
    ensures { result ≡ further_one txn reg table.now }
{
    match table.kind {
        ServiceKind::Txn => ServiceDef {
            name: table.name,
            id: ServiceId::Txn(txn),
            replicas: 0,
        },
        ServiceKind::Reg => ServiceDef {
            name: table.name,
            id: ServiceId::Reg(reg),
            replicas: table.replicas,
        },
    }
}

/// The next number of kind txn behind a service.
fn next_txn(txn: u8, kind: ServiceKind) -> u8
    requires { txn < 255 }
    ensures { result ≡ next_txn txn kind }
{
    match kind {
        ServiceKind::Txn => txn + 1,
        ServiceKind::Reg => txn,
    }
}

/// The next number of kind reg behind a service.
fn next_reg(reg: u8, kind: ServiceKind) -> u8
    requires { reg < 255 }
    ensures { result ≡ next_reg reg kind }
{
    match kind {
        ServiceKind::Txn => reg,
        ServiceKind::Reg => reg + 1,
    }
}

/// Adds a service, or a shard, once for each of these names.
#[tactic(auto, using(crate::proofs::Owners::for_each_drop), unfolding(crate::specs::Services::for_each))]
fn add_each<T: Copy>(list: &mut Seq<T>, owner: T, names: &[Name]) -> Result<(), AllocError>
    ensures { OnOk result (list.new ≡ list.old ++ for_each owner names.now) }
{
    for _name in names {
        list.push(owner)?;
    }
    Ok(())
}

/// The services that tables add, in file order.
#[tactic(auto, using(crate::proofs::Owners::further_from_drop), unfolding(crate::specs::Services::further_from))]
fn further(alloc: Global, tables: &[ServiceTable]) -> Result<Seq<ServiceDef>, AllocError>
    requires few { length tables.now ≤ 6 }
    ensures { IfOk result (λ list. list ≡ further_from 2 2 tables.now) }
{
    let mut list = Seq::new(alloc);
    let mut txn = 2;
    let mut reg = 2;
    for table in tables {
        list.push(further_one(txn, reg, table))?;
        txn = next_txn(txn, table.kind);
        reg = next_reg(reg, table.kind);
    }
    Ok(list)
}

/// Adds the service of each register that tables add.
#[tactic(auto, using(crate::proofs::Owners::owners_from_drop), unfolding(crate::specs::Services::owners_from))]
fn add_owners(list: &mut Seq<ServiceId>, tables: &[ServiceTable]) -> Result<(), AllocError>
    requires few { length tables.now ≤ 6 }
    ensures { OnOk result (list.new ≡ list.old ++ owners_from 2 2 tables.now) }
{
    let mut txn = 2;
    let mut reg = 2;
    for table in tables {
        let service = further_one(txn, reg, table).id;
        add_each(list, service, table.registers.as_slice())?;
        txn = next_txn(txn, table.kind);
        reg = next_reg(reg, table.kind);
    }
    Ok(())
}

/// The service of each register.
#[tactic(auto, unfolding(crate::specs::Services::register_services))]
pub fn register_services(alloc: Global, tables: &FileTables) -> Result<Seq<ServiceId>, AllocError>
    requires few { HasLimits tables.now }
    ensures { IfOk result (λ list. list ≡ register_services tables.now) }
{
    let mut list = Seq::new(alloc);
    add_each(
        &mut list,
        ServiceId::Reg(1),
        tables.root.registers.as_slice(),
    )?;
    add_owners(&mut list, tables.services.as_slice())?;
    Ok(list)
}

/// Whether a service is of a kind.
pub fn is_of(kind: ServiceKind, service: ServiceId) -> bool
    ensures { result ≡ is_of kind service }
{
    match (kind, service) {
        (ServiceKind::Txn, ServiceId::Txn(_)) => true,
        (ServiceKind::Reg, ServiceId::Reg(_)) => true,
        _ => false,
    }
}

/// Adds the services of a kind.
fn add_those(
    list: &mut Seq<ServiceDef>,
    kind: ServiceKind,
    services: &[ServiceDef],
) -> Result<(), AllocError>
    ensures { OnOk result (list.new ≡ list.old ++ those_of kind services.now) }
{
    for service in services {
        if is_of(kind, service.id) {
            list.push(*service)?;
        }
    }
    Ok(())
}

/// Adds all services to an empty list, where tables add these further ones.
#[tactic(auto, unfolding(crate::specs::Services::services_of))]
fn add_services(
    list: &mut Seq<ServiceDef>,
    tables: &FileTables,
    further: &[ServiceDef],
) -> Result<(), AllocError>
    requires empty { list.old ≡ [] }
    requires all { further.now ≡ further_from 2 2 tables.now.services }
    ensures { OnOk result (list.new ≡ services_of tables.now) }
{
    list.push(ServiceDef {
        name: txn_name(),
        id: ServiceId::Txn(1),
        replicas: 0,
    })?;
    add_those(list, ServiceKind::Txn, further)?;
    list.push(ServiceDef {
        name: reg_name(),
        id: ServiceId::Reg(1),
        replicas: tables.root.replicas,
    })?;
    add_those(list, ServiceKind::Reg, further)
}

/// All services: `txn` and those of its kind, then `reg` and those of its kind.
pub fn services(alloc: Global, tables: &FileTables) -> Result<Seq<ServiceDef>, AllocError>
    requires few { HasLimits tables.now }
    ensures { IfOk result (λ list. list ≡ services_of tables.now) }
{
    let further = further(alloc, tables.services.as_slice())?;
    let mut list = Seq::new(alloc);
    add_services(&mut list, tables, further.as_slice())?;
    Ok(list)
}

/// The shard of each key.
#[tactic(auto, using(crate::proofs::Owners::homes_from_drop), unfolding(crate::specs::Services::homes_from))]
pub fn homes(alloc: Global, shards: &[ShardTable]) -> Result<Seq<ShardId>, AllocError>
    requires few { length shards.now ≤ 16 }
    ensures { IfOk result (λ list. list ≡ homes_from 1 shards.now) }
{
    let mut list = Seq::new(alloc);
    for (index, shard) in shards.iter().enumerate() {
        let id = ShardId::new(index as u8 + 1).unwrap();
        add_each(&mut list, id, shard.keys.as_slice())?;
    }
    Ok(list)
}
