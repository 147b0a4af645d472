//! Owners that begin: each is made before its step, and joins the others in it.

ghost use Rattle.std.specs.Prelude.{◌≡◌, ◌+◌, ◌<◌, ◌≤◌, ◌^◌, length, true, false, None, IsSome, OnOk};
ghost use Rattle.rss_machine.specs.State.{opening_owner};
ghost use Rattle.rss_machine.specs.declared.session.OwnerKind.TheVariants.{Calling, Fencing, Stubbing};
ghost use Rattle.rss_tables.specs.Works.{no_works, planned};
ghost use Rattle.owner_turns.specs.Going.{HomesFit};
ghost use Rattle.owner_turns.specs.Whole.{KindFits, OpFits};
ghost use Rattle.world_parts.specs.Halves.{adds_owner};
ghost use Rattle.world_traffic.specs.View.{CountsFit, IsQuiet, HasRoomFor, made_of, next_of, view_in};

use crate::counting::count_fences;
use crate::room::MOST_SENT;
use crate::traffic::Traffic;
use causal_context::Context;
use owner_turns::{Moment, Owner};
use pipeline_lang::Config;
use rss_model::Op;
use rss_names::{Attempt, Seq, ShardId, StageId};
use session_stub::Plan;
use std::alloc::{AllocError, Global};
use truetime::Interval;

impl Traffic {
    /// Makes the owner of a call that a stage begins in a step with this reading, with a copy of its
    /// stage's context and its plan, and room for its turn. An `Err` is want of memory: nothing has
    /// begun.
    pub fn prepare_call(
        &mut self,
        config: &Config,
        stage: StageId,
        op: Op,
        copy: Context,
        plan: Plan,
        step: u32,
        at: Interval,
    ) -> Result<(), AllocError>
        requires fits { OpFits op }
        requires homes { HomesFit config.now (Calling op) }
        requires quiet { IsQuiet self.old }
        ensures next { OnOk result (next_of self.new.next ≡ opening_owner stage (Calling op) true (planned copy.seen plan) step) }
        ensures made { OnOk result (HasRoomFor config.now at None (made_of self.new.next) self.new.spare self.new.outbox) }
        ensures there { OnOk result (IsSome self.new.next) }
        ensures messages { OnOk result (32 ≤ self.new.messages) }
        ensures free { OnOk result (0 < self.new.free) }
        ensures same { self.new.traffic ≡ self.old.traffic }
        ensures quiet { IsQuiet self.new }
    {
        let owner = Owner::call(stage, op, copy, plan, step);
        self.prepare(config, owner, step, at)
    }

    /// Makes the owner of a fence statement likewise.
    pub fn prepare_fence(
        &mut self,
        config: &Config,
        stage: StageId,
        copy: Context,
        plan: Plan,
        step: u32,
        at: Interval,
    ) -> Result<(), AllocError>
        requires quiet { IsQuiet self.old }
        requires homes { HomesFit config.now Fencing }
        ensures next { OnOk result (next_of self.new.next ≡ opening_owner stage Fencing true (planned copy.seen plan) step) }
        ensures made { OnOk result (HasRoomFor config.now at None (made_of self.new.next) self.new.spare self.new.outbox) }
        ensures there { OnOk result (IsSome self.new.next) }
        ensures messages { OnOk result (32 ≤ self.new.messages) }
        ensures free { OnOk result (0 < self.new.free) }
        ensures same { self.new.traffic ≡ self.old.traffic }
        ensures quiet { IsQuiet self.new }
    {
        let owner = Owner::fence(stage, copy, plan, step);
        self.prepare(config, owner, step, at)
    }

    /// Makes the stub of a stage that may die in a step, with a copy of its stage's context and what it
    /// has to settle. An `Err` is want of memory: nothing has begun.
    pub fn prepare_stub(
        &mut self,
        alloc: Global,
        stage: StageId,
        unsettled: Option<(Attempt, Seq<ShardId>)>,
        copy: Context,
        step: u32,
    ) -> Result<(), AllocError>
        requires fits { KindFits (Stubbing unsettled) }
        ensures next { OnOk result (next_of self.new.next ≡ opening_owner stage (Stubbing unsettled) false (no_works copy.seen) step) }
        ensures there { OnOk result (IsSome self.new.next) }
        ensures free { OnOk result (0 < self.new.free) }
        ensures others { self.new ≡ record self.old { free = self.new.free; next = self.new.next } }
    {
        let stub = Owner::stub(alloc, stage, unsettled, copy, step);
        self.next = Some(stub);
        self.owners.reserve(1)
    }

    // The owner that begins next, with room for its turn.
    fn prepare(
        &mut self,
        config: &Config,
        mut owner: Owner,
        step: u32,
        at: Interval,
    ) -> Result<(), AllocError>
        requires homes { HomesFit config.now owner.row.kind }
        requires quiet { IsQuiet self.old }
        ensures next { OnOk result (next_of self.new.next ≡ owner.row) }
        ensures made { OnOk result (HasRoomFor config.now at None (made_of self.new.next) self.new.spare self.new.outbox) }
        ensures there { OnOk result (IsSome self.new.next) }
        ensures messages { OnOk result (32 ≤ self.new.messages) }
        ensures free { OnOk result (0 < self.new.free) }
        ensures same { self.new.traffic ≡ self.old.traffic }
        ensures quiet { IsQuiet self.new }
    {
        self.owners.reserve(1)?;
        self.mail.make_room(MOST_SENT)?;
        let now = Moment {
            config,
            number: 0,
            step,
        };
        owner.make_room(None, &now, at, &mut self.spare, &mut self.outbox)?;
        self.next = Some(owner);
        Ok(())
    }

    /// The owner that was made begins: its fences are counted. Gives its number. Takes no memory.
    #[tactic(auto, using(crate::proofs::Rows::more_rows))]
    pub fn open(&mut self) -> u32
        requires next { IsSome self.old.next }
        requires room { 0 < self.old.free }
        requires few { length self.old.traffic.owners < 2 ^ 32 }
        requires counts { CountsFit (length (next_of self.old.next).works.left) self.old.traffic.planned }
        ensures opens { self.new.traffic ≡ adds_owner self.old.traffic (next_of self.old.next) (next_of self.old.next).works.left }
        ensures number { result ≡ length self.old.traffic.owners }
        ensures made { view_in self.new result ≡ made_of self.old.next }
        ensures others { self.new ≡ record self.old { traffic = self.new.traffic; each = self.new.each; free = self.new.free; next = None } }
    {
        let number = self.owners.len() as u32 + 1;
        if let Some(owner) = self.next.take() {
            count_fences(&mut self.planned, owner.fences());
            self.owners.push(owner).unwrap();
        }
        number
    }
}
