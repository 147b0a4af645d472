//! What a stage has seen of each service.

ghost use Rattle.std.specs.Prelude.{◌≡◌, ◌+◌, ◌<◌, ◌≤◌, OnOk, OnErr, IfOk, IfSome};
ghost use Rattle.causal_context.specs.Services.{IsService};
ghost use Rattle.causal_context.specs.LeastTimes.{AreLeastTimes, least_of, least_from};
ghost use Rattle.causal_context.specs.Deps.{AreAscending};
ghost use Rattle.causal_context.specs.Seen.{context_joined, after_txn, after_read, after_write, after_fence, fenced_outside, entered, deps_cleared};
ghost use Rattle.causal_context.specs.ContextView.{empty_context, room};
ghost use Rattle.rss_names.specs.declared.service.ServiceId.TheVariants.{Txn};

use crate::dep::Dep;
use crate::deps;
use crate::last::Last;
use crate::least::{join_least, least_at, raise_least, set_least};
use rss_names::ServiceId;
use std::alloc::{AllocError, Global};
use std::marker::Model;

/// What a stage has seen of each service: of each transaction service the least time of its next
/// call, the dependencies on registers by ascending register index, and the services used last.
/// Contracts see also for how many more dependencies there is room.
pub struct Context {
    least: [Option<u64>; 8],
    deps: Vec<Dep>,
    last: Last,
}

// Written out, so that a caller who lets a context go sees one call and none of its parts.
impl Drop for Context {
    fn drop(self) {
        let Context {
            least: _least,
            deps: _deps,
            last: _last,
        } = self;
    }
}

impl Model for Context {
    ghost use Rattle.std.specs.Prelude.{◌≡◌, ◌-◌, length, vec_len, vec_capacity};
    ghost use Rattle.causal_context.specs.LeastTimes.{least_from};
    ghost use Rattle.causal_context.specs.Deps.{AreAscending};
    ghost use Rattle.causal_context.specs.Seen.{Seen};
    ghost use Rattle.causal_context.specs.ContextView.{ContextView};

    ghost Value = { ContextView };

    ghost view = { λ c. record {
      seen = record { least = least_from 1 c.least; deps = c.deps.items; last = c.last };
      spare = vec_capacity c.deps - vec_len c.deps;
    } };

    ghost invariant = { λ c. (length c.least ≡ 8) × AreAscending c.deps.items };
}

impl Context {
    /// Nothing was seen yet. This takes no memory.
    #[tactic(auto, unfolding(crate::specs::LeastTimes::least_from))]
    pub fn empty(alloc: Global) -> Context
        ensures { result ≡ empty_context }
    {
        Context {
            least: [None; 8],
            deps: Vec::new(alloc),
            last: Last::empty(),
        }
    }

    /// The least time of a service's next call; 0 for a service that has none.
    #[tactic(auto, using(crate::proofs::Timed::least_times))]
    pub fn least(&self, id: ServiceId) -> u64
        ensures least { result ≡ least_of self.now.seen.least id }
        ensures times { AreLeastTimes self.now.seen.least }
    {
        match id {
            ServiceId::Txn(number) => least_at(&self.least, number),
            ServiceId::Reg(_) => 0,
        }
    }

    /// The dependencies, by ascending register index, so with distinct keys.
    pub fn deps(&self) -> &[Dep]
        ensures same { result.now ≡ self.now.seen.deps }
        ensures ascending { AreAscending self.now.seen.deps }
    {
        self.deps.as_slice()
    }

    /// The services that were used last.
    pub fn last(&self) -> &Last
        ensures { result.now ≡ self.now.seen.last }
    {
        &self.last
    }

    /// Makes room for this many more dependencies. What was seen stays.
    pub fn reserve(&mut self, n: usize) -> Result<(), AllocError>
        ensures same { self.new.seen ≡ self.old.seen }
        ensures reserved { OnOk result (n ≤ self.new.spare) }
        ensures room { self.old.spare ≤ self.new.spare }
        ensures refused { OnErr result (self.new ≡ self.old) }
    {
        self.deps.reserve(n)
    }

    /// An equal context.
    pub fn try_clone(&self, alloc: Global) -> Result<Context, AllocError>
        ensures same { IfOk result (λ copy. copy.seen ≡ self.now.seen) }
    {
        Ok(Context {
            least: self.least,
            deps: Vec::from_slice(alloc, self.deps.as_slice())?,
            last: self.last,
        })
    }

    /// Joins what the other one has seen. Where memory is wanting nothing changes.
    pub fn join(&mut self, other: &Context) -> Result<(), AllocError>
        ensures joined { OnOk result (self.new.seen ≡ context_joined self.old.seen other.now.seen) }
        ensures room { OnOk result (room self.old ≤ room self.new) }
        ensures refused { OnErr result (self.new ≡ self.old) }
    {
        deps::join(&mut self.deps, other.deps.as_slice())?;
        join_least(&mut self.least, &other.least);
        self.last.join(&other.last);
        Ok(())
    }

    /// A call of a transaction service ended at this time.
    pub fn after_txn(&mut self, id: ServiceId, time: u64)
        requires service { IsService id }
        ensures same { self.new.seen ≡ after_txn self.old.seen id time }
        ensures room { self.new.spare ≡ self.old.spare }
    {
        set_least(&mut self.least, id, time);
        self.last = Last::alone(id);
    }

    /// A read of this service ended; the value read is a dependency where one is given, and there
    /// is room for it.
    #[tactic(auto, using(crate::proofs::Ascending::ascending))]
    pub fn after_read(&mut self, id: ServiceId, dep: Option<Dep>)
        requires service { IsService id }
        requires spare { IfSome dep (λ _. 0 < self.old.spare) }
        ensures same { self.new.seen ≡ after_read self.old.seen id dep }
        ensures room { room self.new ≡ room self.old }
    {
        deps::give(&mut self.deps, dep);
        self.last = Last::alone(id);
    }

    /// A write of this service ended.
    pub fn after_write(&mut self, id: ServiceId)
        requires service { IsService id }
        ensures same { self.new.seen ≡ after_write self.old.seen id }
        ensures room { room self.new ≡ room self.old }
    {
        self.deps.clear();
        self.last = Last::alone(id);
    }

    /// The fence of a service ended: it is not used last any more, and no dependency on a register
    /// of it is left.
    pub fn after_fence(&mut self, id: ServiceId)
        ensures same { self.new.seen ≡ after_fence self.old.seen id }
        ensures room { room self.new ≡ room self.old }
    {
        deps::fence(&mut self.deps, id);
        self.last.fence(id);
    }

    /// Every service was fenced.
    pub fn fenced_outside(&mut self)
        ensures same { self.new.seen ≡ fenced_outside self.old.seen }
        ensures room { room self.new ≡ room self.old }
    {
        self.deps.clear();
        self.last = Last::outside_alone();
    }

    /// A service is entered at a moment whose latest reading this is: the least time of a
    /// transaction service is raised to it.
    pub fn enter(&mut self, id: ServiceId, latest: u64)
        requires service { IsService id }
        ensures same { self.new.seen ≡ entered self.old.seen id latest }
        ensures room { self.new.spare ≡ self.old.spare }
    {
        raise_least(&mut self.least, id, latest);
        self.last = Last::alone(id);
    }

    /// Each dependency was stored at a majority: none is left.
    pub fn clear_deps(&mut self)
        ensures same { self.new.seen ≡ deps_cleared self.old.seen }
        ensures room { room self.new ≡ room self.old }
    {
        self.deps.clear();
    }
}
