//! The part of the machine's state that stages have: themselves, the pipes, and what they did.

ghost use Rattle.std.specs.Prelude.{◌≡◌, ◌+◌, ◌<◌, ◌≤◌, ◌^◌, ◌∷◌, ◌++◌, [], length, IfSome, IfNone};
ghost use Rattle.std.specs.Option.{OnSome};
ghost use Rattle.pipeline_lang.specs.Config.{statement_at};
ghost use Rattle.pipeline_lang.specs.declared.script.Statement.TheVariants as statement;
ghost use Rattle.pipeline_stage.specs.Marks.{front_of};
ghost use Rattle.rss_machine.specs.State.{no_stage};
ghost use Rattle.rss_tables.specs.Pipes.{has_room as has_place, can_take as holds_something};
ghost use Rattle.world_parts.specs.Parts.{stage_in, pipe_in};

use crate::pipes::Pipes;
use crate::stages::Stages;
use causal_context::Context;
use pipeline_lang::Config;
use pipeline_stage::{Copies, Front, NumberedStatement, Stage, statement_in};
use rss_model::Entry;
use rss_names::StageId;
use std::alloc::Global;
use std::marker::Model;

/// The stages, the pipes between them and what the stages did, and spare copies of a context for the
/// next step. Contracts see the part of the machine's state that these are, for how many more entries
/// of the history there is room, and the copies.
pub struct Staging {
    pub(crate) stages: Stages,
    pub(crate) pipes: Pipes,
    pub(crate) history: Vec<Entry>,
    pub(crate) spare: Copies,
    pub(crate) alloc: Global,
}

// Written out, so that who lets a staging go sees one call and none of its parts.
impl Drop for Staging {
    fn drop(self) {
        let Staging {
            stages: _stages,
            pipes: _pipes,
            history: _history,
            spare: _spare,
            alloc: _alloc,
        } = self;
    }
}

impl Model for Staging {
    ghost use Rattle.std.specs.Prelude.{◌-◌, vec_len, vec_capacity};
    ghost use Rattle.world_stages.specs.View.{StagingView};

    ghost Value = { StagingView };

    ghost view = { λ s. record {
      staging = record { stages = s.stages; pipes = s.pipes; history = s.history.items };
      room = vec_capacity s.history - vec_len s.history;
      spare = s.spare;
    } };
}

impl Staging {
    /// The number of stages.
    pub fn stage_count(&self) -> usize
        ensures { result ≡ length self.now.staging.stages }
    {
        self.stages.len()
    }

    /// All stages, in order.
    pub fn stages(&self) -> &[Stage]
        ensures { result.now ≡ self.now.staging.stages }
    {
        self.stages.as_slice()
    }

    /// The stage of a number. None where the file lacks it.
    pub fn stage(&self, stage: StageId) -> Option<&Stage>
        ensures found { IfSome result (λ found. found.now ≡ stage_in self.now.staging stage) }
        ensures missing { IfNone result (stage_in self.now.staging stage ≡ no_stage) }
        ensures within { IfSome result (λ _. stage ≤ length self.now.staging.stages) }
    {
        self.stages.get(stage)
    }

    /// What the stages did, in order.
    pub fn history(&self) -> &[Entry]
        ensures { result.now ≡ self.now.staging.history }
    {
        self.history.as_slice()
    }

    /// The statement that a stage makes next. None where an exit stands behind its last one, or where
    /// the file lacks the stage.
    pub fn next_statement<'a>(
        &self,
        config: &'a Config,
        stage: StageId,
    ) -> Option<&'a NumberedStatement>
        ensures some { IfSome result (λ found. found.now ≡ statement_at config.now stage (stage_in self.now.staging stage).cursor.position) }
        ensures none { IfNone result (statement_at config.now stage (stage_in self.now.staging stage).cursor.position ≡ statement.Exit) }
        ensures position { OnSome result ((stage_in self.now.staging stage).cursor.position + 1 < 2 ^ 64) }
    {
        statement_in(config, stage, self.position(stage))
    }

    // The place of a stage's next statement in its script.
    pub(crate) fn position(&self, stage: StageId) -> usize
        ensures { result ≡ (stage_in self.now.staging stage).cursor.position }
    {
        match self.stages.get(stage) {
            Some(found) => found.position(),
            None => 0,
        }
    }

    /// Whether a pipe has room for a chunk more, where it holds this many at most.
    pub fn has_room(&self, pipe: u8, capacity: u8) -> bool
        ensures { result ≡ has_place (pipe_in self.now.staging pipe) capacity }
    {
        self.pipes.has_room(pipe, capacity)
    }

    /// Whether a pipe holds a chunk or an end mark to take.
    pub fn can_take(&self, pipe: u8) -> bool
        ensures { result ≡ holds_something (pipe_in self.now.staging pipe).chunks (pipe_in self.now.staging pipe).mark }
    {
        self.pipes.can_take(pipe)
    }

    // What a take of a pipe meets.
    pub(crate) fn front(&self, pipe: u8) -> Front
        ensures { result ≡ front_of (pipe_in self.now.staging pipe).chunks (pipe_in self.now.staging pipe).mark }
    {
        self.pipes.front(pipe)
    }

    /// A spare copy, for an owner that begins. Takes no memory.
    pub fn take_copy(&mut self) -> Context
        requires some { 0 < self.old.spare.count }
        ensures copy { result.seen ≡ self.old.spare.seen }
        ensures same { self.new.staging ≡ self.old.staging }
        ensures room { self.new.room ≡ self.old.room }
    {
        self.spare.take()
    }

    // One more entry of the history.
    pub(crate) fn note(&mut self, entry: Entry)
        requires room { 0 < self.old.room }
        ensures staging { self.new.staging ≡ record self.old.staging { history = self.old.staging.history ++ entry ∷ [] } }
        ensures room { self.new.room + 1 ≡ self.old.room }
        ensures spare { self.new.spare ≡ self.old.spare }
    {
        self.history.push_reserved(entry);
    }
}
