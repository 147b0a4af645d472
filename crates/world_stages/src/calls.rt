//! What begins and ends of a stage's calls and fence statements, and its death.

ghost use Rattle.std.specs.Prelude.{◌≡◌, ◌+◌, ◌<◌, ◌≤◌, ◌^◌};
ghost use Rattle.pipeline_lang.specs.Config.{statement_at};
ghost use Rattle.rss_model.specs.CallStatement.{after_call};
ghost use Rattle.rss_model.specs.Cursor.{next_cursor};
ghost use Rattle.rss_model.specs.Operation.{values_of};
ghost use Rattle.world_parts.specs.Parts.{stage_in};
ghost use Rattle.world_stages.specs.Halves.{begun, fence_begun, ended, fence_ended, died};

use crate::staging::Staging;
use causal_context::Context;
use pipeline_lang::Config;
use pipeline_stage::script_of;
use rss_model::{Entry, How, Op, Reply};
use rss_names::{CallId, StageId};

impl Staging {
    /// A stage begins a call of this operation, as the owner of this number.
    pub fn begin_call(&mut self, stage: StageId, call: CallId, op: Op)
        requires room { 1 ≤ self.old.room }
        ensures begins { self.new.staging ≡ begun self.old.staging stage call op }
        ensures room { self.new.room + 1 ≡ self.old.room }
        ensures spare { self.new.spare ≡ self.old.spare }
    {
        self.stages.begin(stage, call.number());
        self.note(Entry::Begin(call, stage, op));
    }

    /// A stage begins a fence statement, as the owner of this number.
    pub fn begin_fence(&mut self, stage: StageId, owner: u32)
        ensures begins { self.new.staging ≡ fence_begun self.old.staging stage owner }
        ensures others { self.new ≡ record self.old { staging = self.new.staging } }
    {
        self.stages.begin(stage, owner);
    }

    /// The call of a stage ends with a reply. The stage goes on behind it, and has seen this from now on.
    pub fn end_call(
        &mut self,
        config: &Config,
        stage: StageId,
        call: CallId,
        reply: Reply,
        context: Context,
    )
        requires room { 1 ≤ self.old.room }
        ensures ends { self.new.staging ≡ ended self.old.staging stage call reply (after_call (stage_in self.old.staging stage).cursor (statement_at config.now stage (stage_in self.old.staging stage).cursor.position) (values_of reply)) context.seen }
        ensures room { self.new.room + 1 ≡ self.old.room }
    {
        let script = script_of(config, stage);
        self.stages
            .end_call(stage, script, reply.as_slice(), context);
        self.note(Entry::End(call, reply));
    }

    /// The fence statement of a stage ends. The stage goes on behind it, and has seen this from now on.
    pub fn end_fence(&mut self, stage: StageId, context: Context)
        requires position { (stage_in self.old.staging stage).cursor.position + 1 < 2 ^ 64 }
        ensures ends { self.new.staging ≡ fence_ended self.old.staging stage (next_cursor (stage_in self.old.staging stage).cursor) context.seen }
        ensures room { self.new.room ≡ self.old.room }
        ensures spare { self.new.spare ≡ self.old.spare }
    {
        self.stages.end_fence(stage, context);
    }

    /// A stage dies. What it had under way is closed, and the owner of this number is its stub.
    pub fn die(&mut self, stage: StageId, how: How, stub: u32)
        requires room { 1 ≤ self.old.room }
        ensures dies { self.new.staging ≡ died self.old.staging stage how stub }
        ensures room { self.new.room + 1 ≡ self.old.room }
        ensures spare { self.new.spare ≡ self.old.spare }
    {
        self.stages.die(stage, how, stub);
        self.note(Entry::Over(stage, how));
    }
}
