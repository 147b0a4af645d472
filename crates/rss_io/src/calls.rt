//! The calls on an object in memory, some of which are to fail.
ghost use Rattle.std.specs.Prelude.{◌≡◌, ◌↔◌, ◌≤◌, ◌==◌, IsTrue, IsErr, IfOk, OnOk, OnErr};
ghost use Rattle.std.specs.List.{list_any};
ghost use Rattle.rss_io.specs.Memory.{Calls, no_calls, is_listed, with_success, with_fault};
ghost use Rattle.rss_io.specs.Faults.{HasCause, one_more};

use crate::failed::Failed;
use std::alloc::{AllocError, Global};
use std::marker::Model;

/// Which calls fail, how many were made and how many of them failed.
#[derive(Drop)]
pub(crate) struct Schedule {
    fails: Vec<u32>,
    made: u64,
    faults: u64,
}

impl Model for Schedule {
    ghost Value = { Calls };

    ghost view = { λ s. record { fails = s.fails.items; made = s.made; faults = s.faults } };
}

impl Schedule {
    /// No call is made yet; those with the listed numbers, counted from 1, are to fail.
    ///
    /// # Errors
    ///
    /// `AllocError`, where memory lacks.
    pub(crate) fn new(alloc: Global, fails: &[u32]) -> Result<Schedule, AllocError>
        ensures { IfOk result (λ s. s ≡ no_calls fails.now) }
    {
        let fails = Vec::from_slice(alloc, fails)?;
        Ok(Schedule {
            fails,
            made: 0,
            faults: 0,
        })
    }

    /// Counts one call more.
    ///
    /// # Errors
    ///
    /// `Failed`, and one fault more, exactly where that call is listed.
    pub(crate) fn next(&mut self) -> Result<(), Failed>
        ensures listed { IsErr result ↔ IsTrue (is_listed self.old) }
        ensures cause { HasCause self.old.faults self.new.faults result }
        ensures succeeds { OnOk result (self.new ≡ with_success self.old) }
        ensures fails { OnErr result (self.new ≡ with_fault self.old) }
    {
        let call = self.made.saturating_add(1);
        self.made = call;
        if has_number(&self.fails, call) {
            return Err(self.fault());
        }
        Ok(())
    }

    /// Counts one fault more.
    pub(crate) fn fault(&mut self) -> Failed
        ensures later { self.old.faults ≤ self.new.faults }
        ensures counts { self.new ≡ record self.old { faults = one_more self.old.faults } }
    {
        self.faults = self.faults.saturating_add(1);
        Failed
    }
}

// Whether a call is one of those listed.
fn has_number(listed: &[u32], call: u64) -> bool
    ensures { result ≡ list_any (λ n. n == call) listed.now }
{
    listed.iter().any(|number| u64::from(*number) == call)
}
