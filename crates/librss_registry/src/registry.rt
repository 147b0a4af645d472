//! The services that a caller hands in.

ghost use Rattle.std.specs.Prelude.{◌≡◌, ◌+◌, ◌<◌, ◌≤◌, ◌++◌, ◌∷◌, [], ◌==◌, ◌||◌, not, map, length, Some, None, true, false, OnOk, OnErr, IfOk, IfErr, IfSome, IfNone};
ghost use Rattle.std.specs.Option.{option_map};
ghost use Rattle.causal_context.specs.Seen.{entered};
ghost use Rattle.causal_context.specs.Services.{AreServices, has_service, service_at};
ghost use Rattle.rss_names.specs.Services.{same_service};
ghost use Rattle.rss_tables.specs.Works.{fence_of, plan_for, plan_all};
ghost use Rattle.session_stub.specs.Picked.{fences_from, is_other as is_another};
ghost use Rattle.librss_registry.specs.Registered.{first_with, without_first, first_missing, missing_for, missing_from, is_picked, one_more, counted, Leaves, FoundAt, refusal_of};

use crate::plans::{Fences, Plan};
use crate::refusals::{RegisterRefusal, Unknown};
use crate::service::Service;
use causal_context::Context;
use rss_names::{MOST_OF_A_KIND, ServiceId, is_same_service};
use rss_tables::FenceWork;
use std::alloc::Global;
use std::marker::Model;

/// How many services there can be.
const SERVICES: u8 = 16;

/// The services that a caller handed in: boxes, where nothing else is said. Contracts see the list of
/// them.
#[derive(Drop)]
pub struct Registry<S = Box<dyn Service + Send>> {
    services: Vec<S>,
}

impl<S> Model for Registry<S> {
    ghost use Rattle.std.specs.Prelude.{List};
    ghost use Rattle.std.specs.Coded.{coded_list};

    ghost Value = { List S };

    ghost coded = { coded_list S.code };

    ghost view = { λ r. r.services.items };
}

impl<S: Service> Registry<S> {
    /// No service is registered. Takes no memory.
    pub fn new(alloc: Global) -> Registry<S>
        ensures { result ≡ [] }
    {
        Registry {
            services: Vec::new(alloc),
        }
    }

    /// Registers a service.
    ///
    /// # Errors
    ///
    /// `AlreadyKnown` exactly where one of its number is registered, else want of memory; the service
    /// comes back.
    pub fn register(&mut self, service: S) -> Result<(), (RegisterRefusal, S)>
        ensures unknown { OnOk result (has_service (map S.service_id self.old) (S.service_id service) ≡ false) }
        ensures registered { OnOk result (self.new ≡ self.old ++ service ∷ []) }
        ensures cause { IfErr result (λ e. e.0 ≡ refusal_of (has_service (map S.service_id self.old) (S.service_id service))) }
        ensures back { IfErr result (λ e. e.1 ≡ service) }
        ensures refused { OnErr result (self.new ≡ self.old) }
    {
        if self.knows(service.id()) {
            return Err((RegisterRefusal::AlreadyKnown, service));
        }
        if self.services.reserve(1).is_err() {
            return Err((RegisterRefusal::OutOfMemory, service));
        }
        self.services.push(service).unwrap();
        Ok(())
    }

    /// Gives a service back, which is registered no more.
    ///
    /// # Errors
    ///
    /// `Unknown` exactly where the number is not registered.
    pub fn unregister(&mut self, id: ServiceId) -> Result<S, Unknown>
        ensures service { IfOk result (λ service. first_with S.service_id id self.old ≡ Some service) }
        ensures left { OnOk result (self.new ≡ without_first S.service_id id self.old) }
        ensures unknown { OnErr result (has_service (map S.service_id self.old) id ≡ false) }
        ensures named { IfErr result (λ e. e.id ≡ id) }
        ensures refused { OnErr result (self.new ≡ self.old) }
    {
        match self.place(id) {
            Some(at) => Ok(self.services.remove(at)),
            None => Err(Unknown { id }),
        }
    }

    /// How many fences a service planned, modulo 2^64.
    ///
    /// # Errors
    ///
    /// `Unknown` exactly where the number is not registered.
    pub fn planned(&self, id: ServiceId) -> Result<u64, Unknown>
        ensures planned { IfOk result (λ n. option_map S.fences_planned (first_with S.service_id id self.now) ≡ Some n) }
        ensures unknown { OnErr result (has_service (map S.service_id self.now) id ≡ false) }
        ensures named { IfErr result (λ e. e.id ≡ id) }
    {
        match self.place(id) {
            Some(at) => Ok(self.services[at].planned()),
            None => Err(Unknown { id }),
        }
    }

    /// A service is entered at a moment whose latest reading this is.
    ///
    /// # Errors
    ///
    /// `Unknown` exactly where the number is not registered; no service was called then but for its
    /// number.
    pub fn enter(&mut self, id: ServiceId, ctx: &mut Context, latest: u64) -> Result<(), Unknown>
        ensures known { OnOk result (has_service (map S.service_id self.old) id ≡ true) }
        ensures entered { OnOk result (ctx.new.seen ≡ entered ctx.old.seen id latest) }
        ensures room { OnOk result (ctx.new.spare ≡ ctx.old.spare) }
        ensures ids { map S.service_id self.new ≡ map S.service_id self.old }
        ensures counts { map S.fences_planned self.new ≡ map S.fences_planned self.old }
        ensures others { Leaves (λ s. same_service id (S.service_id s)) self.old self.new }
        ensures unknown { OnErr result (has_service (map S.service_id self.old) id ≡ false) }
        ensures named { IfErr result (λ e. e.id ≡ id) }
        ensures refused { OnErr result ((self.new ≡ self.old) × (ctx.new ≡ ctx.old)) }
    {
        match self.place(id) {
            Some(at) => {
                self.services[at].enter(ctx, latest);
                Ok(())
            }
            None => Err(Unknown { id }),
        }
    }

    /// The plan of a call at a service: the fences of all other services used last, in the order of
    /// services, each planned by its service; the service is entered where anything but itself was
    /// used last. Takes no memory.
    ///
    /// # Errors
    ///
    /// `Unknown` of the first of the call's service and those used last that is not registered. No
    /// fence was planned then.
    pub fn plan(&mut self, ctx: &Context, id: ServiceId) -> Result<Plan, Unknown>
        ensures known { OnOk result (missing_for id ctx.now.seen.last.services (map S.service_id self.old) ≡ None) }
        ensures plan { IfOk result (λ plan. plan ≡ plan_for ctx.now.seen id) }
        ensures ids { map S.service_id self.new ≡ map S.service_id self.old }
        ensures counts { OnOk result (map S.fences_planned self.new ≡ counted (plan_for ctx.now.seen id).fences (map S.service_id self.old) (map S.fences_planned self.old)) }
        ensures others { Leaves (λ s. is_picked ctx.now.seen (Some id) (S.service_id s)) self.old self.new }
        ensures unknown { IfErr result (λ e. missing_for id ctx.now.seen.last.services (map S.service_id self.old) ≡ Some e.id) }
        ensures refused { OnErr result (self.new ≡ self.old) }
    {
        if !self.knows(id) {
            return Err(Unknown { id });
        }
        if let Some(id) = self.missing(ctx) {
            return Err(Unknown { id });
        }
        let fences = self.fence_all(ctx, Some(id));
        let enter = enters(ctx, &fences);
        Ok(Plan::of(fences, enter))
    }

    /// The fences of all services used last, in the order of services, each planned by its service.
    /// Takes no memory.
    ///
    /// # Errors
    ///
    /// `Unknown` of the first of those used last that is not registered. No fence was planned then.
    pub fn plan_all(&mut self, ctx: &Context) -> Result<Fences, Unknown>
        ensures known { OnOk result (first_missing (map S.service_id self.old) ctx.now.seen.last.services ≡ None) }
        ensures fences { IfOk result (λ fences. fences ≡ (plan_all ctx.now.seen).fences) }
        ensures ids { map S.service_id self.new ≡ map S.service_id self.old }
        ensures counts { OnOk result (map S.fences_planned self.new ≡ counted (plan_all ctx.now.seen).fences (map S.service_id self.old) (map S.fences_planned self.old)) }
        ensures others { Leaves (λ s. is_picked ctx.now.seen None (S.service_id s)) self.old self.new }
        ensures unknown { IfErr result (λ e. first_missing (map S.service_id self.old) ctx.now.seen.last.services ≡ Some e.id) }
        ensures refused { OnErr result (self.new ≡ self.old) }
    {
        if let Some(id) = self.missing(ctx) {
            return Err(Unknown { id });
        }
        Ok(self.fence_all(ctx, None))
    }

    // The place of the service of a number.
    fn place(&self, id: ServiceId) -> Option<usize>
        ensures found { IfSome result (λ at. FoundAt S.service_id id self.now at) }
        ensures none { IfNone result (has_service (map S.service_id self.now) id ≡ false) }
    {
        for at in 0..self.services.len() {
            if is_same_service(id, self.services[at].id()) {
                return Some(at);
            }
        }
        None
    }

    /// Whether a number is registered.
    pub fn knows(&self, id: ServiceId) -> bool
        ensures { result ≡ has_service (map S.service_id self.now) id }
    {
        self.place(id).is_some()
    }

    // The first service used last that is not registered.
    fn missing(&self, ctx: &Context) -> Option<ServiceId>
        ensures missing { result ≡ missing_from ctx.now.seen (map S.service_id self.now) 0 16 }
        ensures first { result ≡ first_missing (map S.service_id self.now) ctx.now.seen.last.services }
        ensures services { AreServices ctx.now.seen.last.services }
    {
        // For its clause: the services used last stand in their order.
        let _in_order = ctx.last().has(service_of(0));
        for place in 0..SERVICES {
            if let Some(id) = self.missing_at(ctx, place) {
                return Some(id);
            }
        }
        None
    }

    // The service at a place in the order of services, where it was used last and is not registered.
    #[tactic(auto, unfolding(crate::specs::Registered::missing_from))]
    fn missing_at(&self, ctx: &Context, place: u8) -> Option<ServiceId>
        requires place { place < 16 }
        ensures { result ≡ missing_from ctx.now.seen (map S.service_id self.now) place 1 }
    {
        let id = service_of(place);
        if ctx.last().has(id) && !self.knows(id) {
            return Some(id);
        }
        None
    }

    // Plans the fences of the services used last, in their order, but not that of one that is left
    // out. All of them are registered.
    fn fence_all(&mut self, ctx: &Context, except: Option<ServiceId>) -> Fences
        requires known { missing_from ctx.now.seen (map S.service_id self.old) 0 16 ≡ None }
        ensures fences { result ≡ fences_from ctx.now.seen except 0 16 }
        ensures ids { map S.service_id self.new ≡ map S.service_id self.old }
        ensures counts { map S.fences_planned self.new ≡ counted (fences_from ctx.now.seen except 0 16) (map S.service_id self.old) (map S.fences_planned self.old) }
        ensures others { Leaves (λ s. is_picked ctx.now.seen except (S.service_id s)) self.old self.new }
    {
        let mut fences = Fences::none();
        for place in 0..SERVICES {
            self.fence_at(ctx, except, place, &mut fences);
        }
        fences
    }

    // Plans the fence of the service at a place in the order of services, where it was used last and
    // is not left out. It is registered then.
    fn fence_at(&mut self, ctx: &Context, except: Option<ServiceId>, place: u8, fences: &mut Fences)
        requires place { place < 16 }
        requires known { has_service ctx.now.seen.last.services (service_at place) ≡ true → has_service (map S.service_id self.old) (service_at place) ≡ true }
        requires room { length fences.old < 16 }
        ensures fences { fences.new ≡ fences.old ++ fences_from ctx.now.seen except place 1 }
        ensures few { length fences.new ≤ length fences.old + 1 }
        ensures ids { map S.service_id self.new ≡ map S.service_id self.old }
        ensures counts { map S.fences_planned self.new ≡ counted (fences_from ctx.now.seen except place 1) (map S.service_id self.old) (map S.fences_planned self.old) }
        ensures others { Leaves (λ s. is_picked ctx.now.seen except (S.service_id s)) self.old self.new }
    {
        let id = service_of(place);
        if ctx.last().has(id) && is_other(except, id) {
            let work = self.fence(ctx, id);
            fences.push(id, work);
        }
    }

    // Plans the fence of a service that is registered.
    fn fence(&mut self, ctx: &Context, id: ServiceId) -> FenceWork
        requires known { has_service (map S.service_id self.old) id ≡ true }
        ensures fence { result ≡ fence_of ctx.now.seen id }
        ensures ids { map S.service_id self.new ≡ map S.service_id self.old }
        ensures counts { map S.fences_planned self.new ≡ one_more id (map S.service_id self.old) (map S.fences_planned self.old) }
        ensures others { Leaves (λ s. same_service id (S.service_id s)) self.old self.new }
    {
        let at = self.place(id).unwrap();
        self.services[at].fence(ctx)
    }
}

// Whether a call whose plan has these fences enters its service.
fn enters(ctx: &Context, fences: &Fences) -> bool
    ensures { result ≡ (ctx.now.seen.last.outside || not (length fences.now == 0)) }
{
    ctx.last().outside() || !fences.is_empty()
}

// The service at a place in the order of services.
fn service_of(place: u8) -> ServiceId
    requires { place < 16 }
    ensures { result ≡ service_at place }
{
    if place < MOST_OF_A_KIND {
        ServiceId::Txn(place + 1)
    } else {
        ServiceId::Reg(place - 7)
    }
}

// Whether a service is not the one that is left out.
fn is_other(except: Option<ServiceId>, id: ServiceId) -> bool
    ensures { result ≡ is_another except id }
{
    match except {
        Some(own) => !is_same_service(own, id),
        None => true,
    }
}
