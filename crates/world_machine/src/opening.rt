//! The machine before the first step.

ghost use Rattle.std.specs.Prelude.{IfOk};
ghost use Rattle.world_laws.specs.Shapes.{IsSoundFile};
ghost use Rattle.world_machine.specs.Machine.{IsOpening};
ghost use Rattle.world_traffic.specs.View.{IsQuiet};

use crate::clock::Clock;
use crate::machine::Machine;
use pipeline_lang::Config;
use std::alloc::{AllocError, Global};
use world_stages::Staging;
use world_stores::Stores;
use world_traffic::Traffic;

impl Machine {
    /// The machine before the first step of a file that is sound, as every file that is read. An `Err`
    /// is want of memory.
    #[tactic(auto, using(crate::proofs::Start::few_stages, crate::proofs::Start::few_shards, crate::proofs::Start::few_keys, crate::proofs::Start::opened))]
    pub fn new(alloc: Global, config: Config) -> Result<Machine, AllocError>
        requires file { IsSoundFile config }
        ensures opening { IfOk result (λ m. IsOpening m config) }
        ensures quiet { IfOk result (λ m. IsQuiet m.traffic) }
    {
        let staging = Staging::new(alloc, &config)?;
        let stores = Stores::new(alloc, &config)?;
        Ok(Machine {
            config,
            clock: Clock::new(alloc),
            staging,
            traffic: Traffic::new(alloc),
            stores,
            op: None,
            alloc,
        })
    }
}
