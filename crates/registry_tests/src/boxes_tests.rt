//! Services are registered, planned, and given back.

use causal_context::Context;
use librss_registry::{RegService, RegisterRefusal, Registry, Service, TxnService};
use rss_names::ServiceId;
use std::alloc::{AllocError, Global};
use std::test::Fail;

const TXN: ServiceId = ServiceId::Txn(1);

const REG: ServiceId = ServiceId::Reg(1);

const OTHER: ServiceId = ServiceId::Reg(2);

type Boxed = Box<dyn Service + Send>;

// The transaction service as a box.
fn txn(alloc: Global) -> Result<Boxed, AllocError> {
    Ok(Box::new(alloc, TxnService::new(1))?)
}

// The first register service as a box.
fn reg(alloc: Global) -> Result<Boxed, AllocError> {
    Ok(Box::new(alloc, RegService::new(1))?)
}

// The second register service as a box.
fn other(alloc: Global) -> Result<Boxed, AllocError> {
    Ok(Box::new(alloc, RegService::new(2))?)
}

// What came of registering: 0 where the service is registered, 1 where its number was known.
fn register(registry: &mut Registry, service: Boxed) -> u8 {
    match registry.register(service) {
        Ok(()) => 0,
        Err((RegisterRefusal::AlreadyKnown, _back)) => 1,
        Err((RegisterRefusal::OutOfMemory, _back)) => 2,
    }
}

// How many fences a service planned, and 99 where it is not registered.
fn planned(registry: &Registry, id: ServiceId) -> u64 {
    match registry.planned(id) {
        Ok(count) => count,
        Err(_) => 99,
    }
}

// How many fences the plan of a call has, and 99 where a service is not registered.
fn plan(registry: &mut Registry, ctx: &Context, id: ServiceId) -> usize {
    match registry.plan(ctx, id) {
        Ok(plan) => plan.fences().len(),
        Err(_) => 99,
    }
}

// How many fences a service planned that is given back, and 99 where none is.
fn given_back(registry: &mut Registry, id: ServiceId) -> u64 {
    match registry.unregister(id) {
        Ok(service) => service.planned(),
        Err(_) => 99,
    }
}

// A context that used the transaction service and the first register service last.
fn used_both(alloc: Global) -> Result<Context, AllocError> {
    let mut ctx = Context::empty(alloc);
    ctx.after_txn(TXN, 5);
    let mut other = Context::empty(alloc);
    other.after_write(REG);
    ctx.join(&other)?;
    Ok(ctx)
}

#[test]
fn knows_a_number_once(rt: HostRuntime) -> Result<(), Fail> {
    let mut registry: Registry = Registry::new(rt.alloc());
    assert_eq!(rt; register(&mut registry, txn(rt.alloc())?), 0);
    assert_eq!(rt; register(&mut registry, txn(rt.alloc())?), 1);
    assert_eq!(rt; register(&mut registry, reg(rt.alloc())?), 0);
    assert_eq!(rt; given_back(&mut registry, OTHER), 99);
    assert_eq!(rt; given_back(&mut registry, REG), 0);
    assert_eq!(rt; given_back(&mut registry, REG), 99);
    assert_eq!(rt; planned(&registry, TXN), 0);
    Ok(())
}

#[test]
fn plans_no_fence_where_a_service_is_missing(rt: HostRuntime) -> Result<(), Fail> {
    let mut registry: Registry = Registry::new(rt.alloc());
    assert_eq!(rt; register(&mut registry, txn(rt.alloc())?), 0);
    let ctx = used_both(rt.alloc())?;
    assert_eq!(rt; plan(&mut registry, &ctx, TXN), 99);
    assert_eq!(rt; plan(&mut registry, &ctx, REG), 99);
    assert_eq!(rt; planned(&registry, TXN), 0);
    assert_eq!(rt; planned(&registry, REG), 99);
    Ok(())
}

#[test]
fn counts_the_fences_of_others(rt: HostRuntime) -> Result<(), Fail> {
    let mut registry: Registry = Registry::new(rt.alloc());
    assert_eq!(rt; register(&mut registry, other(rt.alloc())?), 0);
    assert_eq!(rt; register(&mut registry, reg(rt.alloc())?), 0);
    assert_eq!(rt; register(&mut registry, txn(rt.alloc())?), 0);
    let ctx = used_both(rt.alloc())?;
    assert_eq!(rt; plan(&mut registry, &ctx, TXN), 1);
    assert_eq!(rt; plan(&mut registry, &ctx, OTHER), 2);
    assert_eq!(rt; planned(&registry, TXN), 1);
    assert_eq!(rt; planned(&registry, REG), 2);
    assert_eq!(rt; planned(&registry, OTHER), 0);
    assert_eq!(rt; given_back(&mut registry, REG), 2);
    Ok(())
}
