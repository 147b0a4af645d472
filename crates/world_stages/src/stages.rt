//! The stages of a file.

ghost use Rattle.std.specs.Prelude.{◌≡◌, ◌+◌, ◌-◌, ◌<◌, ◌≤◌, ◌^◌, true, Some, None, set, get_or, length, IfSome, IfNone};
ghost use Rattle.pipeline_lang.specs.declared.script.Statement.TheVariants as statement;
ghost use Rattle.pipeline_stage.specs.Statements.{opens_block};
ghost use Rattle.rss_machine.specs.Effect.{with_status, after_take};
ghost use Rattle.rss_machine.specs.State.{no_stage};
ghost use Rattle.rss_machine.specs.declared.state.Life.TheVariants.{Live, Over};
ghost use Rattle.rss_model.specs.CallStatement.{after_call};
ghost use Rattle.rss_model.specs.Cursor.{after_local, next_cursor};
ghost use Rattle.rss_model.specs.Formula.{formula_value};
ghost use Rattle.rss_model.specs.Operation.{values_of};
ghost use Rattle.rss_model.specs.declared.history.How.TheVariants.{Exited};
ghost use Rattle.world_stages.specs.View.{stage_of};

use causal_context::Context;
use pipeline_lang::Expr;
use pipeline_stage::{NumberedStatement, Stage};
use rss_model::{How, Shown};
use rss_names::StageId;
use std::alloc::{AllocError, Global};
use std::marker::Model;

/// The stages of a file; stage number n stands at place n - 1. Contracts see the tables' list. What is
/// done to a stage that the file lacks changes nothing.
pub(crate) struct Stages {
    stages: Vec<Stage>,
}

// Written out, so that who lets the stages go sees one call.
impl Drop for Stages {
    fn drop(self) {
        let Stages { stages: _stages } = self;
    }
}

impl Model for Stages {
    ghost use Rattle.std.specs.Prelude.{List};
    ghost use Rattle.rss_machine.specs.State.{Stage as StageRow};

    ghost Value = { List StageRow };

    ghost view = { λ s. s.stages.items };
}

// The place of a stage.
fn place_of(stage: StageId) -> usize
    ensures { result ≡ stage - 1 }
{
    (stage.number() - 1) as usize
}

impl Stages {
    /// These stages.
    pub(crate) fn new(stages: Vec<Stage>) -> Stages
        ensures { result ≡ stages.items }
    {
        Stages { stages }
    }

    /// How many there are.
    pub(crate) fn len(&self) -> usize
        ensures { result ≡ length self.now }
    {
        self.stages.len()
    }

    /// All of them, in order.
    pub(crate) fn as_slice(&self) -> &[Stage]
        ensures { result.now ≡ self.now }
    {
        self.stages.as_slice()
    }

    /// The stage of a number. None where the file lacks it.
    pub(crate) fn get(&self, stage: StageId) -> Option<&Stage>
        ensures found { IfSome result (λ found. found.now ≡ stage_of self.now stage) }
        ensures missing { IfNone result (stage_of self.now stage ≡ no_stage) }
        ensures within { IfSome result (λ _. stage ≤ length self.now) }
    {
        self.stages.get(place_of(stage))
    }

    /// The value of an expression over the variables of a stage.
    pub(crate) fn value(&self, stage: StageId, expression: &Expr<u8>) -> u64
        requires there { stage ≤ length self.now }
        ensures { result ≡ formula_value expression.now (stage_of self.now stage).cursor.variables }
    {
        let found = &self.stages[place_of(stage)];
        found.value(expression)
    }

    /// What a stage has seen.
    pub(crate) fn context(&self, stage: StageId) -> &Context
        requires there { stage ≤ length self.now }
        ensures { result.now.seen ≡ (stage_of self.now stage).context }
    {
        let found = &self.stages[place_of(stage)];
        found.context()
    }

    /// A stage makes one act more.
    pub(crate) fn count_act(&mut self, stage: StageId)
        requires few { (stage_of self.old stage).acts + 1 < 2 ^ 32 }
        ensures { self.new ≡ set self.old (stage - 1) (record (stage_of self.old stage) { acts = (stage_of self.old stage).acts + 1 }) }
    {
        if let Some(found) = self.stages.get_mut(place_of(stage)) {
            found.count_act();
        }
    }

    /// A stage makes its next statement, where that concerns its script alone.
    pub(crate) fn step_local(&mut self, stage: StageId, script: &[NumberedStatement])
        requires shallow { opens_block (get_or script.now (stage_of self.old stage).cursor.position statement.Exit) ≡ true → length (stage_of self.old stage).cursor.blocks < 4 }
        ensures { self.new ≡ set self.old (stage - 1) (record (stage_of self.old stage) {
          cursor = after_local script.now (stage_of self.old stage).cursor (get_or script.now (stage_of self.old stage).cursor.position statement.Exit);
        }) }
    {
        if let Some(found) = self.stages.get_mut(place_of(stage)) {
            found.step_local(script);
        }
    }

    /// A stage goes on to its next statement.
    pub(crate) fn go_on(&mut self, stage: StageId)
        requires position { (stage_of self.old stage).cursor.position + 1 < 2 ^ 64 }
        ensures { self.new ≡ set self.old (stage - 1) (record (stage_of self.old stage) { cursor = next_cursor (stage_of self.old stage).cursor }) }
    {
        if let Some(found) = self.stages.get_mut(place_of(stage)) {
            found.go_on();
        }
    }

    /// A stage goes on with this status.
    pub(crate) fn go_on_with_status(&mut self, stage: StageId, status: u64)
        requires position { (stage_of self.old stage).cursor.position + 1 < 2 ^ 64 }
        ensures { self.new ≡ set self.old (stage - 1) (record (stage_of self.old stage) { cursor = with_status (stage_of self.old stage).cursor status }) }
    {
        if let Some(found) = self.stages.get_mut(place_of(stage)) {
            found.go_on_with_status(status);
        }
    }

    /// A stage goes on with this status, having seen this.
    pub(crate) fn receive_exit(&mut self, stage: StageId, status: u64, context: Context)
        requires position { (stage_of self.old stage).cursor.position + 1 < 2 ^ 64 }
        ensures { self.new ≡ set self.old (stage - 1) (record (stage_of self.old stage) { cursor = with_status (stage_of self.old stage).cursor status; context = context.seen }) }
    {
        if let Some(found) = self.stages.get_mut(place_of(stage)) {
            found.receive_exit(status, context);
        }
    }

    /// A stage goes on behind a `take`.
    pub(crate) fn go_on_taken(&mut self, stage: StageId, variable: u8, value: u64, status: u64)
        requires position { (stage_of self.old stage).cursor.position + 1 < 2 ^ 64 }
        ensures { self.new ≡ set self.old (stage - 1) (record (stage_of self.old stage) { cursor = after_take (stage_of self.old stage).cursor variable value status }) }
    {
        if let Some(found) = self.stages.get_mut(place_of(stage)) {
            found.go_on_taken(variable, value, status);
        }
    }

    /// A stage goes on behind a `take`, having seen this.
    pub(crate) fn receive_taken(
        &mut self,
        stage: StageId,
        variable: u8,
        value: u64,
        status: u64,
        context: Context,
    )
        requires position { (stage_of self.old stage).cursor.position + 1 < 2 ^ 64 }
        ensures { self.new ≡ set self.old (stage - 1) (record (stage_of self.old stage) { cursor = after_take (stage_of self.old stage).cursor variable value status; context = context.seen }) }
    {
        if let Some(found) = self.stages.get_mut(place_of(stage)) {
            found.receive_taken(variable, value, status, context);
        }
    }

    /// A stage is born, having seen this.
    pub(crate) fn be_born(&mut self, stage: StageId, context: Context)
        ensures { self.new ≡ set self.old (stage - 1) (record (stage_of self.old stage) { life = Live; context = context.seen }) }
    {
        if let Some(found) = self.stages.get_mut(place_of(stage)) {
            found.be_born(context);
        }
    }

    /// A stage begins a call or a fence statement.
    pub(crate) fn begin(&mut self, stage: StageId, owner: u32)
        ensures { self.new ≡ set self.old (stage - 1) (record (stage_of self.old stage) { owner = Some owner }) }
    {
        if let Some(found) = self.stages.get_mut(place_of(stage)) {
            found.begin(owner);
        }
    }

    /// The call of a stage ends, which was shown this; the stage has seen this from now on.
    pub(crate) fn end_call(
        &mut self,
        stage: StageId,
        script: &[NumberedStatement],
        shown: &[Shown],
        context: Context,
    )
        ensures { self.new ≡ set self.old (stage - 1) (record (stage_of self.old stage) {
          cursor = after_call (stage_of self.old stage).cursor (get_or script.now (stage_of self.old stage).cursor.position statement.Exit) (values_of shown.now);
          context = context.seen;
          owner = None;
        }) }
    {
        if let Some(found) = self.stages.get_mut(place_of(stage)) {
            found.end_call(script, shown, context);
        }
    }

    /// The fence statement of a stage ends; the stage has seen this from now on.
    pub(crate) fn end_fence(&mut self, stage: StageId, context: Context)
        requires position { (stage_of self.old stage).cursor.position + 1 < 2 ^ 64 }
        ensures { self.new ≡ set self.old (stage - 1) (record (stage_of self.old stage) { cursor = next_cursor (stage_of self.old stage).cursor; context = context.seen; owner = None }) }
    {
        if let Some(found) = self.stages.get_mut(place_of(stage)) {
            found.end_fence(context);
        }
    }

    /// A stage exits.
    pub(crate) fn exit(&mut self, stage: StageId)
        ensures { self.new ≡ set self.old (stage - 1) (record (stage_of self.old stage) { life = Over Exited }) }
    {
        if let Some(found) = self.stages.get_mut(place_of(stage)) {
            found.exit();
        }
    }

    /// A stage dies, and the owner of this number is its stub.
    pub(crate) fn die(&mut self, stage: StageId, how: How, stub: u32)
        ensures { self.new ≡ set self.old (stage - 1) (record (stage_of self.old stage) { life = Over how; owner = None; stub = Some stub }) }
    {
        if let Some(found) = self.stages.get_mut(place_of(stage)) {
            found.die(how, stub);
        }
    }
}
