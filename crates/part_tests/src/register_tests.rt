//! The register services as they are called.

use carstamps::Carstamp;
use pipeline_lang::{Config, NameTable, ServiceDef};
use reg_world::RegWorld;
use rss_names::{Key, Name, ReplicaId, Seq, ServiceId};
use rss_wire::{Reply, Request};
use std::alloc::{AllocError, Global};
use std::test::Fail;

// The service, and its register.
const SERVICE: ServiceId = ServiceId::Reg(1);

const REGISTER: Key = Key {
    service: SERVICE,
    index: 0,
};

// A file of these services and registers, of which nothing else is asked.
fn file(alloc: Global, services: Seq<ServiceDef>, registers: NameTable) -> Config {
    Config {
        tries: 3,
        max_steps: 100,
        drivers: 1,
        services,
        registers,
        register_services: Seq::new(alloc),
        shards: NameTable::new(alloc),
        shard_services: Seq::new(alloc),
        keys: NameTable::new(alloc),
        homes: Seq::new(alloc),
        pipes: NameTable::new(alloc),
        pipe_ends: Seq::new(alloc),
        stages: NameTable::new(alloc),
        bodies: Seq::new(alloc),
        withholds: Seq::new(alloc),
        kills: Seq::new(alloc),
    }
}

// One service of three replicas.
fn services(alloc: Global, name: Name) -> Result<Seq<ServiceDef>, AllocError> {
    let mut services = Vec::new(alloc);
    services.push(ServiceDef {
        name,
        id: SERVICE,
        replicas: 3,
    })?;
    Ok(Seq::from_vec(services))
}

// One register.
fn registers(alloc: Global, name: Name) -> Result<NameTable, AllocError> {
    let mut registers = NameTable::new(alloc);
    registers.add(name)?;
    Ok(registers)
}

// The register services of one register of one service.
fn world(alloc: Global) -> Result<RegWorld, Fail> {
    let services = services(alloc, Name::read(b"reg")?)?;
    let registers = registers(alloc, Name::read(b"r")?)?;
    let config = file(alloc, services, registers);
    Ok(RegWorld::new(alloc, &config)?)
}

// The stamp of a write.
fn stamp(number: u64) -> Carstamp {
    Carstamp { number, call: 4 }
}

// A replica of a service serves a request.
fn serve(
    world: &mut RegWorld,
    service: ServiceId,
    replica: u8,
    r: &Request,
    step: u32,
) -> Result<Reply, AllocError> {
    world.make_room()?;
    match ReplicaId::new(replica) {
        Some(replica) => Ok(world.handle(service, replica, r, step)),
        None => Err(AllocError),
    }
}

#[test]
fn notes_when_a_majority_first_holds(rt: HostRuntime) -> Result<(), Fail> {
    let mut world = world(rt.alloc())?;
    let rows = [
        (1, 1, 3, None, None),
        (1, 1, 4, None, None),
        (2, 1, 5, Some(5), None),
        (3, 1, 6, Some(5), None),
        (3, 2, 8, Some(5), None),
        (1, 2, 9, Some(5), Some(9)),
    ];
    for (replica, number, step, first, second) in rows {
        let store = Request::Store {
            key: REGISTER,
            value: 7,
            stamp: stamp(number),
            writer: 4,
        };
        serve(&mut world, SERVICE, replica, &store, step)?;
        let found = (
            world.majority_step(REGISTER, stamp(1)),
            world.majority_step(REGISTER, stamp(2)),
        );
        assert_eq!(rt; found, (first, second), "in step {step}");
    }
    Ok(())
}

// Whether a replica holds nothing.
fn is_opening(reply: &Reply) -> bool {
    match reply {
        Reply::Held {
            value,
            stamp,
            writer,
        } => *value == 0 && !stamp.is_above(Carstamp::ZERO) && *writer == 0,
        _ => false,
    }
}

#[test]
fn serves_opening_values_where_nothing_is(rt: HostRuntime) -> Result<(), Fail> {
    let mut world = world(rt.alloc())?;
    let ask = Request::Ask { key: REGISTER };
    for (service, replica) in [
        (SERVICE, 3),
        (SERVICE, 4),
        (ServiceId::Reg(2), 1),
        (ServiceId::Txn(1), 1),
    ] {
        let reply = serve(&mut world, service, replica, &ask, 1)?;
        assert!(rt; is_opening(&reply), "replica {replica}");
    }
    Ok(())
}
