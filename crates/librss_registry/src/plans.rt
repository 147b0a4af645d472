//! Plans in place: what each service that was used last still owes before another is called.

ghost use Rattle.std.specs.Prelude.{◌≡◌, ◌<◌, ◌==◌, ◌++◌, ◌∷◌, [], length};

use rss_names::ServiceId;
use rss_tables::FenceWork;
use std::marker::Model;

/// How many services there can be.
const SERVICES: usize = 16;

/// Fences, each with its service, at most one of each. They take no memory.
#[derive(Drop)]
pub struct Fences {
    works: [(ServiceId, FenceWork); 16],
    len: usize,
}

impl Model for Fences {
    ghost use Rattle.std.specs.Prelude.{◌≡◌, ◌≤◌, List, take, length};
    ghost use Rattle.rss_names.specs.declared.service.ServiceId.{ServiceId};
    ghost use Rattle.rss_tables.specs.declared.fences.FenceWork.{FenceWork};

    ghost Value = { List (ServiceId × FenceWork) };

    ghost view = { λ f. take f.len f.works };

    ghost invariant = { λ f. (f.len ≤ 16) × (length f.works ≡ 16) };
}

impl Fences {
    // None.
    pub(crate) fn none() -> Fences
        ensures { result ≡ [] }
    {
        Fences {
            works: [(ServiceId::Txn(1), FenceWork::Nothing); SERVICES],
            len: 0,
        }
    }

    // Appends one. There is room for it.
    pub(crate) fn push(&mut self, id: ServiceId, work: FenceWork)
        requires room { length self.old < 16 }
        ensures { self.new ≡ self.old ++ (id, work) ∷ [] }
    {
        self.works[self.len] = (id, work);
        self.len += 1;
    }

    /// The fences in their order.
    pub fn as_slice(&self) -> &[(ServiceId, FenceWork)]
        ensures { result.now ≡ self.now }
    {
        &self.works[..self.len]
    }

    /// How many there are.
    pub fn len(&self) -> usize
        ensures { result ≡ length self.now }
    {
        self.len
    }

    /// Whether there is none.
    pub fn is_empty(&self) -> bool
        ensures { result ≡ (length self.now == 0) }
    {
        self.len == 0
    }
}

/// What a call owes before its first round: the fences of other services, and whether its own service
/// is entered behind them. Contracts see the tables' plan.
#[derive(Drop)]
pub struct Plan {
    fences: Fences,
    enter: bool,
}

impl Model for Plan {
    ghost use Rattle.rss_tables.specs.Works.{Plan as PlanRow};

    ghost Value = { PlanRow };

    ghost view = { λ p. record { fences = p.fences; enter = p.enter } };
}

impl Plan {
    // A plan of its parts.
    pub(crate) fn of(fences: Fences, enter: bool) -> Plan
        ensures { result ≡ record { fences = fences; enter = enter } }
    {
        Plan { fences, enter }
    }

    /// The fences, each with its service, in the order of services.
    pub fn fences(&self) -> &[(ServiceId, FenceWork)]
        ensures { result.now ≡ self.now.fences }
    {
        self.fences.as_slice()
    }

    /// Whether the call's own service is entered behind them.
    pub fn enters(&self) -> bool
        ensures { result ≡ self.now.enter }
    {
        self.enter
    }
}
