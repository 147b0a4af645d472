//! The statements of a script that concern stages and pipes alone.

ghost use Rattle.std.specs.Prelude.{◌≡◌, ◌+◌, ◌-◌, ◌<◌, ◌≤◌, ◌^◌, ◌∷◌, ◌++◌, [], true, false, set, length};
ghost use Rattle.pipeline_lang.specs.Config.{script_of as script_of_stage, statement_at};
ghost use Rattle.pipeline_stage.specs.CopiesView.{AreCopies};
ghost use Rattle.pipeline_stage.specs.Statements.{opens_block};
ghost use Rattle.rss_machine.specs.Moves.{counts_act, moves_on, spawns, puts, closes};
ghost use Rattle.rss_machine.specs.State.{stage_at};
ghost use Rattle.rss_model.specs.Cursor.{after_local, next_cursor};
ghost use Rattle.rss_model.specs.Formula.{formula_value};
ghost use Rattle.rss_tables.specs.Pipes.{pipe_put};
ghost use Rattle.world_parts.specs.Parts.{in_staging, stage_in, pipe_in};

use crate::staging::Staging;
use pipeline_lang::{Config, Expr};
use pipeline_stage::script_of;
use rss_model::{Entry, Token};
use rss_names::StageId;

impl Staging {
    /// A stage makes an act.
    pub fn count_act(&mut self, stage: StageId)
        requires few { (stage_in self.old.staging stage).acts + 1 < 2 ^ 32 }
        ensures counts { self.new.staging ≡ in_staging (λ s. counts_act s stage) self.old.staging }
        ensures others { self.new ≡ record self.old { staging = self.new.staging } }
    {
        self.stages.count_act(stage);
    }

    /// A stage makes its next statement, where that is a `let`, `repeat`, `when` or `end`. Any other
    /// changes nothing.
    pub fn step_local(&mut self, config: &Config, stage: StageId)
        requires shallow { opens_block (statement_at config.now stage (stage_in self.old.staging stage).cursor.position) ≡ true → length (stage_in self.old.staging stage).cursor.blocks < 4 }
        ensures moves { self.new.staging ≡ in_staging (λ s. moves_on s stage (after_local (script_of_stage config.now stage) (stage_at s stage).cursor (statement_at config.now stage (stage_at s stage).cursor.position))) self.old.staging }
        ensures others { self.new ≡ record self.old { staging = self.new.staging } }
    {
        self.stages.step_local(stage, script_of(config, stage));
    }

    /// A stage spawns another, which is born with a spare copy of its context.
    pub fn spawn(&mut self, stage: StageId, child: StageId)
        requires later { stage < child }
        requires position { (stage_in self.old.staging stage).cursor.position + 1 < 2 ^ 64 }
        requires copies { AreCopies self.old.spare (stage_in self.old.staging stage).context 1 }
        requires room { 2 ≤ self.old.room }
        ensures spawns { self.new.staging ≡ in_staging (λ s. spawns s stage child (next_cursor (stage_at s stage).cursor)) self.old.staging }
        ensures room { self.new.room + 2 ≡ self.old.room }
    {
        // for its clause alone: a stage's number is at least 1, so the two are at different places
        let _ = stage.number();
        let context = self.spare.take();
        self.stages.go_on(stage);
        self.stages.be_born(child, context);
        self.note(Entry::Give(stage, Token::Spawn(child)));
        self.note(Entry::Get(child, Token::Spawn(child)));
    }

    /// A stage puts the value of an expression into a pipe, with a spare copy of its context; where
    /// nobody will take it, it is dropped.
    pub fn put(&mut self, stage: StageId, pipe: u8, value: &Expr<u8>, dropped: bool)
        requires there { stage ≤ length self.old.staging.stages }
        requires position { (stage_in self.old.staging stage).cursor.position + 1 < 2 ^ 64 }
        requires few { dropped ≡ false → length (pipe_in self.old.staging pipe).chunks < 64 }
        requires numbers { (pipe_in self.old.staging pipe).next + 1 < 2 ^ 32 }
        requires copies { AreCopies self.old.spare (stage_in self.old.staging stage).context 1 }
        requires room { 1 ≤ self.old.room }
        ensures puts { self.new.staging ≡ in_staging (λ s. puts s stage pipe (formula_value value.now (stage_at s stage).cursor.variables) dropped (next_cursor (stage_at s stage).cursor)) self.old.staging }
        ensures room { self.new.room + 1 ≡ self.old.room }
    {
        let value = self.stages.value(stage, value);
        let number = self.pipes.next(pipe);
        self.put_or_drop(pipe, value, dropped);
        self.stages.go_on(stage);
        self.note(Entry::Give(stage, Token::Chunk(pipe, number)));
    }

    // A value is put into a pipe with a spare copy, or dropped.
    fn put_or_drop(&mut self, pipe: u8, value: u64, dropped: bool)
        requires few { dropped ≡ false → length (pipe_in self.old.staging pipe).chunks < 64 }
        requires numbers { (pipe_in self.old.staging pipe).next + 1 < 2 ^ 32 }
        requires some { 0 < self.old.spare.count }
        ensures puts { self.new.staging ≡ record self.old.staging { pipes = set self.old.staging.pipes (pipe - 1) (pipe_put (pipe_in self.old.staging pipe) value self.old.spare.seen dropped) } }
        ensures room { self.new.room ≡ self.old.room }
    {
        if dropped {
            self.pipes.skip(pipe);
        } else {
            let context = self.spare.take();
            self.pipes.put(pipe, value, context);
        }
    }

    /// A stage closes a pipe, with a spare copy of its context.
    pub fn close(&mut self, stage: StageId, pipe: u8)
        requires position { (stage_in self.old.staging stage).cursor.position + 1 < 2 ^ 64 }
        requires numbers { (pipe_in self.old.staging pipe).next + 1 < 2 ^ 32 }
        requires copies { AreCopies self.old.spare (stage_in self.old.staging stage).context 1 }
        requires room { 1 ≤ self.old.room }
        ensures closes { self.new.staging ≡ in_staging (λ s. moves_on (closes s stage (stage_at s stage).context pipe) stage (next_cursor (stage_at s stage).cursor)) self.old.staging }
        ensures room { self.new.room + 1 ≡ self.old.room }
    {
        self.end_pipe(stage, pipe);
        self.stages.go_on(stage);
    }

    // A pipe gets its end mark from a stage, with a spare copy.
    pub(crate) fn end_pipe(&mut self, stage: StageId, pipe: u8)
        requires numbers { (pipe_in self.old.staging pipe).next + 1 < 2 ^ 32 }
        requires some { 0 < self.old.spare.count }
        requires room { 1 ≤ self.old.room }
        ensures closes { self.new.staging ≡ in_staging (λ s. closes s stage self.old.spare.seen pipe) self.old.staging }
        ensures room { self.new.room + 1 ≡ self.old.room }
        ensures left { self.new.spare.count + 1 ≡ self.old.spare.count }
        ensures others { 0 < self.new.spare.count → self.new.spare.seen ≡ self.old.spare.seen }
    {
        let context = self.spare.take();
        let number = self.pipes.next(pipe);
        self.pipes.close(pipe, context);
        self.note(Entry::Give(stage, Token::Chunk(pipe, number)));
    }
}
