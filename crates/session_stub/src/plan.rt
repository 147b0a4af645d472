//! Plans: what each service that was used last still owes before another is called.

ghost use Rattle.std.specs.Prelude.{◌≡◌, ◌+◌, ◌-◌, ◌<◌, ◌≤◌, ◌++◌, ◌∷◌, [], ◌==◌, ◌||◌, not, length, IfOk, OnOk, OnErr, None, Some, vec_len, vec_capacity};
ghost use Rattle.causal_context.specs.Services.{AreServices, service_at};
ghost use Rattle.rss_tables.specs.Works.{fence_of as fence_for, fix_unless_none, plan_for, plan_all};
ghost use Rattle.causal_context.specs.Deps.{deps_of};
ghost use Rattle.session_stub.specs.Picked.{fences_from, is_other as is_another};

use causal_context::{Context, Dep};
use rss_names::{MOST_OF_A_KIND, ServiceId, is_same_service};
use rss_tables::FenceWork;
use std::alloc::{AllocError, Global};
use std::marker::Model;

/// How many services there can be.
const SERVICES: u8 = 16;

/// The fences that an owner is to run, each with its service, and whether it then enters its own
/// service. Contracts see the tables' plan.
pub struct Plan {
    fences: Vec<(ServiceId, FenceWork)>,
    enter: bool,
}

// Written out, so that who lets a plan go sees one call and none of its parts.
impl Drop for Plan {
    fn drop(self) {
        let Plan {
            fences: _fences,
            enter: _enter,
        } = self;
    }
}

impl Model for Plan {
    ghost use Rattle.rss_tables.specs.Works.{Plan as PlanRow};

    ghost Value = { PlanRow };

    ghost view = { λ p. record { fences = p.fences.items; enter = p.enter } };
}

impl Plan {
    /// The plan of a call at a service: the fences of all other services used last; the service is
    /// entered where anything but itself was used last. An `Err` is want of memory.
    #[tactic(auto, using(crate::proofs::Picks::plans))]
    pub fn for_service(alloc: Global, context: &Context, id: ServiceId) -> Result<Plan, AllocError>
        ensures { IfOk result (λ p. p ≡ plan_for context.now.seen id) }
    {
        let mut fences = Vec::new(alloc);
        add_fences(&mut fences, context, Some(id))?;
        let enter = enters(context, fences.as_slice());
        Ok(Plan { fences, enter })
    }

    /// The plan of a fence statement or a stub: the fences of all services used last. An `Err` is want
    /// of memory.
    #[tactic(auto, using(crate::proofs::Picks::plans))]
    pub fn all(alloc: Global, context: &Context) -> Result<Plan, AllocError>
        ensures { IfOk result (λ p. p ≡ plan_all context.now.seen) }
    {
        let mut fences = Vec::new(alloc);
        add_fences(&mut fences, context, None)?;
        Ok(Plan {
            fences,
            enter: false,
        })
    }

    /// How many fences it has.
    pub fn len(&self) -> usize
        ensures { result ≡ length self.now.fences }
    {
        self.fences.len()
    }

    /// Whether it has none.
    pub fn is_empty(&self) -> bool
        ensures { result ≡ (length self.now.fences == 0) }
    {
        self.fences.is_empty()
    }

    // Its parts.
    pub(crate) fn into_parts(self) -> (Vec<(ServiceId, FenceWork)>, bool)
        ensures fences { result.0.items ≡ self.fences }
        ensures enter { result.1 ≡ self.enter }
    {
        let Plan { fences, enter } = self;
        (fences, enter)
    }

    /// The fences, each with its service.
    pub fn fences(&self) -> &[(ServiceId, FenceWork)]
        ensures { result.now ≡ self.now.fences }
    {
        self.fences.as_slice()
    }
}

/// Appends the fences of the services that were used last, in their order, but not that of one that is
/// left out. An `Err` is want of memory, where there is no room for sixteen.
#[tactic(auto, using(crate::proofs::Picks::picking))]
pub fn add_fences(
    fences: &mut Vec<(ServiceId, FenceWork)>,
    context: &Context,
    except: Option<ServiceId>,
) -> Result<(), AllocError>
    ensures added { OnOk result (fences.new.items ≡ fences.old.items ++ fences_from context.now.seen except 0 16) }
    ensures full { OnErr result (vec_capacity fences.old < vec_len fences.old + 16) }
    ensures services { AreServices context.now.seen.last.services }
{
    // For its clause: the services used last stand in their order.
    let _in_order = context.last().has(service_of(0));
    for place in 0..SERVICES {
        add_fence(fences, context, except, place)?;
    }
    Ok(())
}

// Appends the fence of a service, where it was used last and is not left out.
fn add_fence(
    fences: &mut Vec<(ServiceId, FenceWork)>,
    context: &Context,
    except: Option<ServiceId>,
    place: u8,
) -> Result<(), AllocError>
    requires { place < 16 }
    ensures added { OnOk result (fences.new.items ≡ fences.old.items ++ fences_from context.now.seen except place 1) }
    ensures longer { OnOk result (vec_len fences.new ≤ vec_len fences.old + 1) }
    ensures capacity { vec_capacity fences.old ≤ vec_capacity fences.new }
    ensures full { OnErr result (vec_capacity fences.old ≤ vec_len fences.old) }
{
    let id = service_of(place);
    if context.last().has(id) && is_other(except, id) {
        fences.push((id, fence_of(context, id)))?;
    }
    Ok(())
}

// Whether a call whose plan has these fences enters its service.
fn enters(context: &Context, fences: &[(ServiceId, FenceWork)]) -> bool
    ensures { result ≡ (context.now.seen.last.outside || not (length fences.now == 0)) }
{
    context.last().outside() || !fences.is_empty()
}

// The service at a place in the order of services.
fn service_of(place: u8) -> ServiceId
    requires { place < 16 }
    ensures { result ≡ service_at place }
{
    if place < MOST_OF_A_KIND {
        ServiceId::Txn(place + 1)
    } else {
        ServiceId::Reg(place - 7)
    }
}

// Whether a service is not the one that is left out.
fn is_other(except: Option<ServiceId>, id: ServiceId) -> bool
    ensures { result ≡ is_another except id }
{
    match except {
        Some(own) => !is_same_service(own, id),
        None => true,
    }
}

/// What the fence of a service comes to: waiting for the least time of a transaction service, storing
/// the dependencies on a register service's registers.
pub fn fence_of(context: &Context, id: ServiceId) -> FenceWork
    ensures { result ≡ fence_for context.now.seen id }
{
    match id {
        ServiceId::Txn(_) => FenceWork::Past(context.least(id)),
        ServiceId::Reg(_) => fix_of(context.deps(), id),
    }
}

// Dependencies on a service's registers are to be stored, where there are any.
fn fix_of(deps: &[Dep], id: ServiceId) -> FenceWork
    ensures { result ≡ fix_unless_none (deps_of id deps.now) }
{
    for dep in deps {
        if is_same_service(id, dep.key.service) {
            return FenceWork::Fix;
        }
    }
    FenceWork::Nothing
}
