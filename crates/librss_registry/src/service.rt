//! A service as its library.

ghost use Rattle.std.specs.Prelude.{◌≡◌, ℕ};
ghost use Rattle.causal_context.specs.Seen.{entered};
ghost use Rattle.causal_context.specs.Services.{IsService};
ghost use Rattle.librss_registry.specs.Counted.{count_more};
ghost use Rattle.rss_names.specs.declared.service.ServiceId.{ServiceId as Id};
ghost use Rattle.rss_tables.specs.Works.{fence_of};

use causal_context::Context;
use rss_names::ServiceId;
use rss_tables::FenceWork;

/// A service as its library: it says what its fence comes to, counts the fences that it planned, and
/// is entered by a call that comes from elsewhere. None of this fails.
pub trait Service: Drop {
    ghost service_id: { Self → Id };

    ghost fences_planned: { Self → ℕ };

    /// Its number, which never changes.
    fn id(&self) -> ServiceId
        ensures id { result ≡ service_id self.now }
        ensures number { IsService (service_id self.now) };

    /// Plans its fence, and counts it.
    fn fence(&mut self, ctx: &Context) -> FenceWork
        ensures fence { result ≡ fence_of ctx.now.seen (service_id self.old) }
        ensures same { service_id self.new ≡ service_id self.old }
        ensures counted { fences_planned self.new ≡ count_more (fences_planned self.old) };

    /// Is entered at a moment whose latest reading this is.
    fn enter(&mut self, ctx: &mut Context, latest: u64)
        ensures entered { ctx.new.seen ≡ entered ctx.old.seen (service_id self.old) latest }
        ensures room { ctx.new.spare ≡ ctx.old.spare }
        ensures same { service_id self.new ≡ service_id self.old }
        ensures count { fences_planned self.new ≡ fences_planned self.old };

    /// How many fences it planned, modulo 2^64.
    fn planned(&self) -> u64
        ensures planned { result ≡ fences_planned self.now };
}

impl Service for Box<dyn Service + Send> {
    ghost service_id = { λ b. (Service-box b).service_id b.value };

    ghost fences_planned = { λ b. (Service-box b).fences_planned b.value };

    fn id(&self) -> ServiceId {
        (**self).id()
    }

    fn fence(&mut self, ctx: &Context) -> FenceWork {
        (**self).fence(ctx)
    }

    fn enter(&mut self, ctx: &mut Context, latest: u64) {
        (**self).enter(ctx, latest);
    }

    fn planned(&self) -> u64 {
        (**self).planned()
    }
}
