//! What stages get: chunks, end marks and exits.

ghost use Rattle.std.specs.Prelude.{◌≡◌, ◌+◌, ◌<◌, ◌≤◌, ◌^◌};
ghost use Rattle.pipeline_stage.specs.CopiesView.{AreCopies};
ghost use Rattle.rss_machine.specs.Effect.{takes, after_take, with_status};
ghost use Rattle.rss_machine.specs.Moves.{takes_chunk};
ghost use Rattle.rss_machine.specs.State.{pipe_at};
ghost use Rattle.rss_model.specs.declared.history.Token.TheVariants as tokens;
ghost use Rattle.world_parts.specs.Parts.{in_staging, stage_in};
ghost use Rattle.world_stages.specs.Halves.{staged, got_with, waited_with};
ghost use Rattle.world_stages.specs.Readies.{seen_behind_take};

use crate::staging::Staging;
use pipeline_stage::Front;
use rss_machine::StageState;
use rss_model::{Entry, Token};
use rss_names::StageId;
use rss_tables::StubEnd;

impl Staging {
    /// A stage takes the first chunk of a pipe into a variable, or meets its end mark, which stays. The
    /// spare copy is what the stage has seen, joined with the context that lies with it.
    pub fn take(&mut self, stage: StageId, variable: u8, pipe: u8)
        requires position { (stage_in self.old.staging stage).cursor.position + 1 < 2 ^ 64 }
        requires copies { AreCopies self.old.spare (seen_behind_take self.old.staging stage pipe) 1 }
        requires room { 1 ≤ self.old.room }
        ensures { self.new.staging ≡ in_staging (λ s. takes s stage variable pipe (pipe_at s pipe).chunks) self.old.staging }
    {
        match self.front(pipe) {
            Front::Chunk(number, value) => self.take_chunk(stage, variable, pipe, number, value),
            Front::Fenced(number) => self.receive_taken(stage, variable, pipe, number, 0, 1),
            Front::Bare => self.pass_end(stage, variable),
            Front::Nothing => {}
        }
    }

    // A stage takes the first chunk of a pipe, which has this number and value.
    fn take_chunk(&mut self, stage: StageId, variable: u8, pipe: u8, number: u32, value: u64)
        requires position { (stage_in self.old.staging stage).cursor.position + 1 < 2 ^ 64 }
        requires some { 0 < self.old.spare.count }
        requires room { 1 ≤ self.old.room }
        ensures { self.new.staging ≡ got_with (in_staging (λ s. takes_chunk s pipe) self.old.staging) stage (tokens.Chunk pipe number) self.old.spare.seen (after_take (stage_in self.old.staging stage).cursor variable value 0) }
    {
        self.pipes.take(pipe);
        self.receive_taken(stage, variable, pipe, number, value, 0);
    }

    // A stage gets a chunk or an end mark of this number, and goes on with this value and status. It has
    // seen what the spare copy says from now on.
    fn receive_taken(
        &mut self,
        stage: StageId,
        variable: u8,
        pipe: u8,
        number: u32,
        value: u64,
        status: u64,
    )
        requires position { (stage_in self.old.staging stage).cursor.position + 1 < 2 ^ 64 }
        requires some { 0 < self.old.spare.count }
        requires room { 1 ≤ self.old.room }
        ensures { self.new.staging ≡ got_with self.old.staging stage (tokens.Chunk pipe number) self.old.spare.seen (after_take (stage_in self.old.staging stage).cursor variable value status) }
    {
        let context = self.spare.take();
        self.stages
            .receive_taken(stage, variable, value, status, context);
        self.note(Entry::Get(stage, Token::Chunk(pipe, number)));
    }

    // A stage meets the bare end mark of a pipe.
    fn pass_end(&mut self, stage: StageId, variable: u8)
        requires position { (stage_in self.old.staging stage).cursor.position + 1 < 2 ^ 64 }
        ensures { self.new.staging ≡ staged self.old.staging stage (record (stage_in self.old.staging stage) { cursor = after_take (stage_in self.old.staging stage).cursor variable 0 2 }) }
    {
        self.stages.go_on_taken(stage, variable, 0, 2);
    }

    /// A stage waits for a child that stands so. Where the child has exited, or its stub is done and
    /// fenced, the spare copy is what the stage has seen, joined with the context that lies with the
    /// child's exit. A child that is not done changes nothing.
    pub fn wait(&mut self, stage: StageId, child: StageId, state: StageState)
        requires position { (stage_in self.old.staging stage).cursor.position + 1 < 2 ^ 64 }
        requires some { 0 < self.old.spare.count }
        requires room { 1 ≤ self.old.room }
        ensures { self.new.staging ≡ waited_with self.old.staging stage child self.old.spare.seen state }
    {
        match state {
            StageState::Exited => self.receive_exit(stage, child, 0),
            StageState::Ended(_, Some(StubEnd::Fenced)) => self.receive_exit(stage, child, 1),
            StageState::Ended(_, Some(StubEnd::Unfenced(_))) => self.pass_exit(stage),
            StageState::Ended(_, None) => {}
            StageState::Unborn => {}
            StageState::Live => {}
        }
    }

    // A stage waited for a child whose stub is done unfenced.
    fn pass_exit(&mut self, stage: StageId)
        requires position { (stage_in self.old.staging stage).cursor.position + 1 < 2 ^ 64 }
        ensures { self.new.staging ≡ staged self.old.staging stage (record (stage_in self.old.staging stage) { cursor = with_status (stage_in self.old.staging stage).cursor 2 }) }
    {
        self.stages.go_on_with_status(stage, 2);
    }

    // A stage gets the exit of a child, and goes on with this status. It has seen what the spare copy
    // says from now on.
    fn receive_exit(&mut self, stage: StageId, child: StageId, status: u64)
        requires position { (stage_in self.old.staging stage).cursor.position + 1 < 2 ^ 64 }
        requires some { 0 < self.old.spare.count }
        requires room { 1 ≤ self.old.room }
        ensures { self.new.staging ≡ got_with self.old.staging stage (tokens.Exit child) self.old.spare.seen (with_status (stage_in self.old.staging stage).cursor status) }
    {
        let context = self.spare.take();
        self.stages.receive_exit(stage, status, context);
        self.note(Entry::Get(stage, Token::Exit(child)));
    }
}
