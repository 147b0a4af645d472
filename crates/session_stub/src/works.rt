//! The works of an owner: the fences of its plan, one after another, on a copy of its stage's context.

ghost use Rattle.std.specs.Prelude.{◌≡◌, ◌+◌, ◌-◌, ◌<◌, ◌≤◌, ◌==◌, length, false, OnOk};
ghost use Rattle.causal_context.specs.Services.{IsService};
ghost use Rattle.causal_context.specs.Seen.{deps_cleared, entered, fenced_outside};
ghost use Rattle.rss_tables.specs.Works.{no_works, planned};
ghost use Rattle.session_stub.specs.Passing.{first_ended, first_of, first_passes as passes_first, through_works, next_work, stopped, stopped_at};

use crate::plan::Plan;
use causal_context::Context;
use rss_names::ServiceId;
use rss_tables::FenceWork;
use std::alloc::{AllocError, Global};
use std::marker::Model;
use truetime::Interval;

/// What works come to in a step.
#[derive(Clone, Copy)]
pub enum Next {
    /// They are done.
    Over,
    /// They wait until the true moment has passed this time.
    Waits(u64),
    /// The dependencies on this service's registers are to be stored.
    Fix(ServiceId),
}

/// The works of an owner. Contracts see the tables' works, and for how many fences of a new plan there
/// is room.
pub struct Works {
    copy: Context,
    fences: Vec<(ServiceId, FenceWork)>,
    at: usize,
    enter: bool,
    wait: Option<u64>,
}

// Written out, so that who lets works go sees one call and none of their parts.
impl Drop for Works {
    fn drop(self) {
        let Works {
            copy: _copy,
            fences: _fences,
            at: _at,
            enter: _enter,
            wait: _wait,
        } = self;
    }
}

impl Model for Works {
    ghost use Rattle.std.specs.Prelude.{◌≤◌, drop, vec_len, vec_capacity};
    ghost use Rattle.session_stub.specs.Passing.{WorksView};

    ghost Value = { WorksView };

    ghost view = { λ w. record {
      works = record { copy = w.copy.seen; left = drop w.at w.fences.items; enter = w.enter; wait = w.wait };
      room = vec_capacity w.fences;
    } };

    ghost invariant = { λ w. w.at ≤ vec_len w.fences };
}

impl Works {
    /// Works with a plan, on a copy of a context.
    pub fn planned(copy: Context, plan: Plan) -> Works
        ensures { result.works ≡ planned copy.seen plan }
    {
        let (fences, enter) = plan.into_parts();
        Works {
            copy,
            fences,
            at: 0,
            enter,
            wait: None,
        }
    }

    /// Works that nothing is planned for yet. Takes no memory.
    pub fn none(alloc: Global, copy: Context) -> Works
        ensures { result.works ≡ no_works copy.seen }
    {
        Works {
            copy,
            fences: Vec::new(alloc),
            at: 0,
            enter: false,
            wait: None,
        }
    }

    /// Makes room for the fences of a new plan. An `Err` is want of memory, and the works are as they
    /// were.
    pub fn make_room(&mut self, fences: usize) -> Result<(), AllocError>
        ensures same { self.new.works ≡ self.old.works }
        ensures room { OnOk result (fences ≤ self.new.room) }
        ensures room_stays { self.old.room ≤ self.new.room }
    {
        self.fences.reserve(fences)
    }

    /// A new plan takes the place of the old one; its own service is not entered. Takes no memory.
    pub fn plan(&mut self, fences: &[(ServiceId, FenceWork)])
        requires room { length fences.now ≤ self.old.room }
        ensures planned { self.new.works ≡ planned self.old.works.copy (record { fences = fences.now; enter = false }) }
        ensures room { self.old.room ≤ self.new.room }
    {
        self.fences.clear();
        self.fences.extend_from_slice(fences).unwrap();
        self.at = 0;
        self.enter = false;
        self.wait = None;
    }

    /// The copy of its stage's context.
    pub fn copy(&self) -> &Context
        ensures { result.now.seen ≡ self.now.works.copy }
    {
        &self.copy
    }

    /// How many fences are left.
    #[tactic(auto, using(crate::proofs::Parts::length_left))]
    pub fn len(&self) -> usize
        ensures { result ≡ length self.now.works.left }
    {
        self.fences.len() - self.at
    }

    /// Whether no fence is left.
    #[tactic(auto, using(crate::proofs::Parts::length_left))]
    pub fn is_empty(&self) -> bool
        ensures { result ≡ (length self.now.works.left == 0) }
    {
        self.fences.len() == self.at
    }

    /// The fences that are left, each with its service.
    pub fn left(&self) -> &[(ServiceId, FenceWork)]
        ensures { result.now ≡ self.now.works.left }
    {
        &self.fences[self.at..]
    }

    /// Whether the owner's own service is still to be entered.
    pub fn enters(&self) -> bool
        ensures { result ≡ self.now.works.enter }
    {
        self.enter
    }

    /// The time that the works wait for, if they do.
    pub fn wait(&self) -> Option<u64>
        ensures { result ≡ self.now.works.wait }
    {
        self.wait
    }

    /// The first of the fences left, if there is one.
    #[tactic(auto, using(crate::proofs::Parts::first_left))]
    pub fn first(&self) -> Option<(ServiceId, FenceWork)>
        ensures { result ≡ first_of self.now.works.left }
    {
        if self.at < self.fences.len() {
            Some(self.fences[self.at])
        } else {
            None
        }
    }

    /// The first of the fences left has ended, if there is one.
    #[tactic(auto, using(crate::proofs::Parts::first_left, crate::proofs::Parts::next_left))]
    pub fn end_first(&mut self)
        ensures works { self.new.works ≡ first_ended self.old.works self.old.works.left }
        ensures room { self.new.room ≡ self.old.room }
    {
        if self.at < self.fences.len() {
            let fence = self.fences[self.at];
            self.copy.after_fence(fence.0);
            self.at += 1;
            self.wait = None;
        }
    }

    /// Goes through the fences that owe nothing or whose time has passed, in a step with this reading,
    /// and tells what comes next. Where that is a time, the works wait for it.
    #[tactic(auto, using(crate::proofs::Parts::passing))]
    pub fn pass(&mut self, at: Interval) -> Next
        ensures works { self.new.works ≡ through_works at self.old.works self.old.works.left }
        ensures next { result ≡ next_work at self.old.works.left }
        ensures room { self.new.room ≡ self.old.room }
    {
        while self.first_passes(at) {
            self.end_first();
        }
        self.stop()
    }

    // Whether the first of the fences left owes nothing, or its time has passed.
    #[tactic(auto, using(crate::proofs::Parts::first_tells))]
    fn first_passes(&self, at: Interval) -> bool
        ensures { result ≡ passes_first at self.now.works.left }
    {
        match self.first() {
            Some((_, FenceWork::Nothing)) => true,
            Some((_, FenceWork::Past(time))) => time < at.earliest(),
            Some((_, FenceWork::Fix)) => false,
            None => false,
        }
    }

    // What comes next where the first of the fences left does not pass.
    #[tactic(auto, using(crate::proofs::Parts::first_stops))]
    fn stop(&mut self) -> Next
        ensures works { self.new.works ≡ stopped self.old.works self.old.works.left }
        ensures next { result ≡ stopped_at self.old.works.left }
        ensures room { self.new.room ≡ self.old.room }
    {
        match self.first() {
            Some((_, FenceWork::Past(time))) => {
                self.wait = Some(time);
                Next::Waits(time)
            }
            Some((id, FenceWork::Fix)) => Next::Fix(id),
            Some((_, FenceWork::Nothing)) => Next::Over,
            None => Next::Over,
        }
    }

    /// The owner enters its service, at a moment whose latest reading this is.
    pub fn enter(&mut self, id: ServiceId, latest: u64)
        requires service { IsService id }
        ensures works { self.new.works ≡ record self.old.works { copy = entered self.old.works.copy id latest; enter = false } }
        ensures room { self.new.room ≡ self.old.room }
    {
        self.copy.enter(id, latest);
        self.enter = false;
    }

    /// The dependencies of the copy are stored at a majority: none is left.
    pub fn clear(&mut self)
        ensures works { self.new.works ≡ record self.old.works { copy = deps_cleared self.old.works.copy } }
        ensures room { self.new.room ≡ self.old.room }
    {
        self.copy.clear_deps();
    }

    /// Every service was fenced.
    pub fn fence_outside(&mut self)
        ensures works { self.new.works ≡ record self.old.works { copy = fenced_outside self.old.works.copy } }
        ensures room { self.new.room ≡ self.old.room }
    {
        self.copy.fenced_outside();
    }
}
