//! The services of the two kinds.

ghost use Rattle.std.specs.Prelude.{◌≡◌, ◌≤◌};
ghost use Rattle.rss_names.specs.declared.service.ServiceId.TheVariants.{Txn, Reg};

use crate::service::Service;
use causal_context::Context;
use rss_names::ServiceId;
use rss_tables::FenceWork;
use session_stub::fence_of;
use std::marker::Model;

/// The library of a transaction service.
#[derive(Drop)]
pub struct TxnService {
    number: u8,
    planned: u64,
}

impl Model for TxnService {
    ghost use Rattle.std.specs.Prelude.{◌≤◌};
    ghost use Rattle.librss_registry.specs.Counted.{CountedView};

    ghost Value = { CountedView };

    ghost view = { λ s. record { number = s.number; planned = s.planned } };

    ghost invariant = { λ s. (1 ≤ s.number) × (s.number ≤ 8) };
}

impl TxnService {
    /// That of the transaction service of this number, which planned no fence yet.
    pub fn new(number: u8) -> TxnService
        requires number { (1 ≤ number) × (number ≤ 8) }
        ensures { result ≡ record { number = number; planned = 0 } }
    {
        TxnService { number, planned: 0 }
    }
}

impl Service for TxnService {
    ghost service_id = { λ s. Txn s.number };

    ghost fences_planned = { λ s. s.planned };

    fn id(&self) -> ServiceId {
        ServiceId::Txn(self.number)
    }

    fn fence(&mut self, ctx: &Context) -> FenceWork {
        self.planned = self.planned.wrapping_add(1);
        fence_of(ctx, ServiceId::Txn(self.number))
    }

    fn enter(&mut self, ctx: &mut Context, latest: u64) {
        ctx.enter(ServiceId::Txn(self.number), latest);
    }

    fn planned(&self) -> u64 {
        self.planned
    }
}

/// The library of a register service.
#[derive(Drop)]
pub struct RegService {
    number: u8,
    planned: u64,
}

impl Model for RegService {
    ghost use Rattle.std.specs.Prelude.{◌≤◌};
    ghost use Rattle.librss_registry.specs.Counted.{CountedView};

    ghost Value = { CountedView };

    ghost view = { λ s. record { number = s.number; planned = s.planned } };

    ghost invariant = { λ s. (1 ≤ s.number) × (s.number ≤ 8) };
}

impl RegService {
    /// That of the register service of this number, which planned no fence yet.
    pub fn new(number: u8) -> RegService
        requires number { (1 ≤ number) × (number ≤ 8) }
        ensures { result ≡ record { number = number; planned = 0 } }
    {
        RegService { number, planned: 0 }
    }
}

impl Service for RegService {
    ghost service_id = { λ s. Reg s.number };

    ghost fences_planned = { λ s. s.planned };

    fn id(&self) -> ServiceId {
        ServiceId::Reg(self.number)
    }

    fn fence(&mut self, ctx: &Context) -> FenceWork {
        self.planned = self.planned.wrapping_add(1);
        fence_of(ctx, ServiceId::Reg(self.number))
    }

    fn enter(&mut self, ctx: &mut Context, latest: u64) {
        ctx.enter(ServiceId::Reg(self.number), latest);
    }

    fn planned(&self) -> u64 {
        self.planned
    }
}
