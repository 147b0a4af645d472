//! Room for one step, and copies of contexts for it.

ghost use Rattle.std.specs.Prelude.{◌≡◌, ◌+◌, ◌<◌, ◌≤◌, OnOk, OnErr, IfOk, length};
ghost use Rattle.causal_context.specs.Seen.{context_joined, fenced_outside};
ghost use Rattle.pipeline_lang.specs.Config.{statement_at};
ghost use Rattle.pipeline_stage.specs.CopiesView.{AreCopies};
ghost use Rattle.world_parts.specs.Parts.{stage_in};
ghost use Rattle.world_stages.specs.Readies.{IsReady, IsReadyFor, IsGrown, seen_behind_take};

use crate::staging::Staging;
use causal_context::Context;
use pipeline_lang::{Config, Statement};
use pipeline_stage::{Copies, NumberedStatement, joined};
use rss_names::StageId;
use std::alloc::AllocError;

impl Staging {
    /// Makes room for the next statement of a stage, and the copies of contexts that it needs; `exit` is
    /// the context that lies with the exit of the child that it waits for, if it does. An `Err` is want
    /// of memory. Only room and copies change, and with an `Err` room alone.
    pub fn make_room_for(
        &mut self,
        config: &Config,
        stage: StageId,
        exit: &Context,
    ) -> Result<(), AllocError>
        requires there { stage ≤ length self.old.staging.stages }
        requires pipes { length config.now.pipe_ends ≤ 16 }
        ensures same { self.new.staging ≡ self.old.staging }
        ensures ready { OnOk result (IsReadyFor config.now self.new stage exit.now.seen (statement_at config.now stage (stage_in self.old.staging stage).cursor.position)) }
        ensures refused { OnErr result (IsGrown self.old self.new) }
    {
        match self.next_statement(config, stage) {
            Some(statement) => self.ready_for(config, stage, exit, statement),
            None => self.ready_to_exit(config, stage),
        }
    }

    // Makes room for this statement of a stage.
    fn ready_for(
        &mut self,
        config: &Config,
        stage: StageId,
        exit: &Context,
        statement: &NumberedStatement,
    ) -> Result<(), AllocError>
        requires there { stage ≤ length self.old.staging.stages }
        requires pipes { length config.now.pipe_ends ≤ 16 }
        ensures same { self.new.staging ≡ self.old.staging }
        ensures ready { OnOk result (IsReadyFor config.now self.new stage exit.now.seen statement.now) }
        ensures refused { OnErr result (IsGrown self.old self.new) }
    {
        match statement {
            Statement::Spawn(_) => self.ready_own(stage, 2, 1),
            Statement::Wait(_) => self.ready_joined(stage, exit),
            Statement::Put(_, _) => self.ready_own(stage, 1, 1),
            Statement::Take(_, pipe) => self.ready_to_take(stage, *pipe),
            Statement::Close(_) => self.ready_own(stage, 1, 1),
            Statement::Exit => self.ready_to_exit(config, stage),
            Statement::Read(_, _) => self.ready_own(stage, 1, 1),
            Statement::Write(_, _) => self.ready_own(stage, 1, 1),
            Statement::Snap(_) => self.ready_own(stage, 1, 1),
            Statement::Txn(_, _, _) => self.ready_own(stage, 1, 1),
            Statement::Fence => self.ready_own(stage, 0, 1),
            Statement::Let(_, _) => Ok(()),
            Statement::Repeat(_) => Ok(()),
            Statement::When(_) => Ok(()),
            Statement::End => Ok(()),
        }
    }

    /// Makes room for this many entries of the history. An `Err` is want of memory.
    pub fn make_room(&mut self, entries: usize) -> Result<(), AllocError>
        ensures room { OnOk result (entries ≤ self.new.room) }
        ensures grown { IsGrown self.old self.new }
    {
        self.history.reserve(entries)
    }

    /// Makes room for this many entries, and this many copies of what a stage has seen. An `Err` is want
    /// of memory, and leaves the copies as they are.
    pub fn ready_own(
        &mut self,
        stage: StageId,
        entries: usize,
        copies: usize,
    ) -> Result<(), AllocError>
        requires there { stage ≤ length self.old.staging.stages }
        ensures same { self.new.staging ≡ self.old.staging }
        ensures ready { OnOk result (IsReady self.new entries (stage_in self.old.staging stage).context copies) }
        ensures refused { OnErr result (IsGrown self.old self.new) }
    {
        let made = self.copies_of(stage, copies)?;
        self.make_room(entries)?;
        self.spare = made;
        Ok(())
    }

    /// Makes room for this many entries, and this many copies of a context. An `Err` is want of memory,
    /// and leaves the copies as they are.
    pub fn ready_copies(
        &mut self,
        context: &Context,
        entries: usize,
        copies: usize,
    ) -> Result<(), AllocError>
        ensures same { self.new.staging ≡ self.old.staging }
        ensures ready { OnOk result (IsReady self.new entries context.now.seen copies) }
        ensures refused { OnErr result (IsGrown self.old self.new) }
    {
        let made = Copies::of(self.alloc, context, copies)?;
        self.make_room(entries)?;
        self.spare = made;
        Ok(())
    }

    // This many copies of what a stage has seen.
    fn copies_of(&self, stage: StageId, copies: usize) -> Result<Copies, AllocError>
        requires there { stage ≤ length self.now.staging.stages }
        ensures { IfOk result (λ made. AreCopies made (stage_in self.now.staging stage).context copies) }
    {
        Copies::of(self.alloc, self.stages.context(stage), copies)
    }

    /// Makes room for an entry, and a copy of what a stage has seen, joined with this context. An `Err`
    /// is want of memory, and leaves the copies as they are.
    pub fn ready_joined(&mut self, stage: StageId, other: &Context) -> Result<(), AllocError>
        requires there { stage ≤ length self.old.staging.stages }
        ensures same { self.new.staging ≡ self.old.staging }
        ensures ready { OnOk result (IsReady self.new 1 (context_joined (stage_in self.old.staging stage).context other.now.seen) 1) }
        ensures refused { OnErr result (IsGrown self.old self.new) }
    {
        let made = self.joined_with(stage, other)?;
        self.make_room(1)?;
        self.spare = made;
        Ok(())
    }

    // A copy of what a stage has seen, joined with this context.
    fn joined_with(&self, stage: StageId, other: &Context) -> Result<Copies, AllocError>
        requires there { stage ≤ length self.now.staging.stages }
        ensures { IfOk result (λ made. AreCopies made (context_joined (stage_in self.now.staging stage).context other.now.seen) 1) }
    {
        let both = joined(self.alloc, self.stages.context(stage), other)?;
        Copies::one(self.alloc, both)
    }

    /// Makes room for the entries of a stub's end, and the copies of its stage's end marks: of this
    /// context, when every service was fenced. An `Err` is want of memory, and leaves the copies as they
    /// are.
    pub fn ready_fenced(&mut self, config: &Config, context: &Context) -> Result<(), AllocError>
        requires pipes { length config.now.pipe_ends ≤ 16 }
        ensures same { self.new.staging ≡ self.old.staging }
        ensures ready { OnOk result (IsReady self.new (length config.now.pipe_ends + 1) (fenced_outside context.now.seen) (length config.now.pipe_ends + 1)) }
        ensures refused { OnErr result (IsGrown self.old self.new) }
    {
        let pipes = config.pipe_ends.len();
        let made = Copies::fenced(self.alloc, context, pipes + 1)?;
        self.make_room(pipes + 1)?;
        self.spare = made;
        Ok(())
    }

    // Makes room for a take.
    fn ready_to_take(&mut self, stage: StageId, pipe: u8) -> Result<(), AllocError>
        requires there { stage ≤ length self.old.staging.stages }
        ensures same { self.new.staging ≡ self.old.staging }
        ensures ready { OnOk result (IsReady self.new 1 (seen_behind_take self.old.staging stage pipe) 1) }
        ensures refused { OnErr result (IsGrown self.old self.new) }
    {
        let made = self.copy_to_take(stage, pipe)?;
        self.make_room(1)?;
        self.spare = made;
        Ok(())
    }

    // A copy of what a stage has seen, joined with the context that lies with what a take meets, if one
    // does.
    fn copy_to_take(&self, stage: StageId, pipe: u8) -> Result<Copies, AllocError>
        requires there { stage ≤ length self.now.staging.stages }
        ensures { IfOk result (λ made. AreCopies made (seen_behind_take self.now.staging stage pipe) 1) }
    {
        match self.pipes.lying(pipe) {
            Some(other) => self.joined_with(stage, other),
            None => self.copies_of(stage, 1),
        }
    }

    // Makes room for an exit.
    fn ready_to_exit(&mut self, config: &Config, stage: StageId) -> Result<(), AllocError>
        requires there { stage ≤ length self.old.staging.stages }
        requires pipes { length config.now.pipe_ends ≤ 16 }
        ensures same { self.new.staging ≡ self.old.staging }
        ensures ready { OnOk result (IsReady self.new (length config.now.pipe_ends + 2) (stage_in self.old.staging stage).context (length config.now.pipe_ends + 1)) }
        ensures refused { OnErr result (IsGrown self.old self.new) }
    {
        let pipes = config.pipe_ends.len();
        self.ready_own(stage, pipes + 2, pipes + 1)
    }
}
