//! The parts that steps change.

ghost use Rattle.std.specs.Prelude.{◌≡◌, ◌+◌, ◌<◌, ◌≤◌, length, IfSome, IfNone};
ghost use Rattle.rss_machine.specs.State.{stage_at, owner_at, no_owner, no_stage};
ghost use Rattle.rss_machine.specs.Turns.{due_message};
ghost use Rattle.rss_wire.specs.Messages.{envelope_at, pending_count};
ghost use Rattle.world_machine.specs.Machine.{state_of};
ghost use Rattle.world_traffic.specs.View.{IsBegun};

use crate::clock::Clock;
use owner_turns::Owner;
use pipeline_lang::Config;
use pipeline_stage::Stage;
use rss_machine::{Life, OwnerFate};
use rss_model::Op;
use rss_names::StageId;
use rss_wire::Envelope;
use std::alloc::Global;
use world_stages::Staging;
use world_stores::Stores;
use world_traffic::Traffic;

/// The file, and the parts of the machine's state. Contracts read the state from them.
pub struct Machine {
    pub config: Config,
    pub clock: Clock,
    /// Stages, the pipes between them, and what the stages did.
    pub staging: Staging,
    /// All owners, all messages, and how many fences were planned of each service.
    pub traffic: Traffic,
    /// Shards and replicas.
    pub stores: Stores,
    /// The operation of the call that the next step may begin with.
    pub op: Option<Op>,
    pub alloc: Global,
}

// Written out, so that a caller who lets a machine go sees one call and none of its parts.
impl Drop for Machine {
    fn drop(self) {
        let Machine {
            config: _config,
            clock: _clock,
            staging: _staging,
            traffic: _traffic,
            stores: _stores,
            op: _op,
            alloc: _alloc,
        } = self;
    }
}

impl Machine {
    /// The stage of a number. None where the file lacks it.
    pub fn stage(&self, stage: StageId) -> Option<&Stage>
        ensures found { IfSome result (λ found. found.now ≡ stage_at (state_of self.now) stage) }
        ensures missing { IfNone result (stage_at (state_of self.now) stage ≡ no_stage) }
        ensures within { IfSome result (λ _. stage ≤ length self.now.staging.staging.stages) }
    {
        self.staging.stage(stage)
    }

    /// The owner of a number. None where no owner of this number has begun.
    pub fn owner(&self, number: u32) -> Option<&Owner>
        ensures found { IfSome result (λ found. found.now.row ≡ owner_at (state_of self.now) number) }
        ensures missing { IfNone result (owner_at (state_of self.now) number ≡ no_owner) }
        ensures within { IfSome result (λ _. IsBegun self.now.traffic.traffic number) }
    {
        self.traffic.owner(number)
    }

    /// The life of a stage; one that the file lacks is unborn.
    pub fn life(&self, stage: StageId) -> Life
        ensures { result ≡ (stage_at (state_of self.now) stage).life }
    {
        match self.stage(stage) {
            Some(found) => found.life(),
            None => Life::Unborn,
        }
    }

    /// The number of the call or fence statement that a stage has under way.
    pub fn owner_of(&self, stage: StageId) -> Option<u32>
        ensures { result ≡ (stage_at (state_of self.now) stage).owner }
    {
        match self.stage(stage) {
            Some(found) => found.owner(),
            None => None,
        }
    }

    /// The number of the stub of a stage, if it died.
    pub fn stub_of(&self, stage: StageId) -> Option<u32>
        ensures { result ≡ (stage_at (state_of self.now) stage).stub }
    {
        match self.stage(stage) {
            Some(found) => found.stub(),
            None => None,
        }
    }

    /// How many acts a stage has made.
    pub fn acts(&self, stage: StageId) -> u32
        ensures { result ≡ (stage_at (state_of self.now) stage).acts }
    {
        match self.stage(stage) {
            Some(found) => found.acts(),
            None => 0,
        }
    }

    /// How an owner stands.
    pub fn fate(&self, number: u32) -> OwnerFate
        ensures { result ≡ (owner_at (state_of self.now) number).fate }
    {
        match self.owner(number) {
            Some(owner) => owner.fate(),
            None => OwnerFate::Ended,
        }
    }

    /// The number of steps made.
    pub fn steps(&self) -> u32
        ensures { result ≡ (state_of self.now).steps }
    {
        self.clock.steps
    }

    /// The outside of a stage's least-numbered message that is still to come, if there is one.
    pub fn due(&self, stage: StageId) -> Option<Envelope>
        ensures { result ≡ due_message stage (state_of self.now).net }
    {
        self.traffic.due(stage)
    }

    /// The outside of a message. None exactly where no message of this number was sent.
    pub fn envelope(&self, number: u32) -> Option<Envelope>
        ensures { result ≡ envelope_at (state_of self.now).net number }
    {
        self.traffic.envelope(number)
    }

    /// How many messages are neither delivered nor lost.
    pub fn pending(&self) -> usize
        ensures { result ≡ pending_count (state_of self.now).net }
    {
        self.traffic.pending()
    }
}
