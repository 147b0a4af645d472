//! How the pipes of a stage end.

ghost use Rattle.std.specs.Prelude.{◌≡◌, ◌+◌, ◌-◌, ◌<◌, ◌≤◌, ◌^◌, length, ℕ, if◌then◌else◌};
ghost use Rattle.pipeline_stage.specs.CopiesView.{AreCopies};
ghost use Rattle.rss_machine.specs.Moves.{is_to_end, closes, cuts_pipe, closes_from, cuts_from, gives_exit, exits};
ghost use Rattle.world_parts.specs.Parts.{in_staging, stage_in, pipe_in, assembled, at_step, no_traffic, no_stores};
ghost use Rattle.world_stages.specs.Readies.{HasNumbers};

use crate::staging::Staging;
use pipeline_lang::Config;
use rss_model::{Entry, How, Token};
use rss_names::StageId;

impl Staging {
    /// A stage exits: its pipes end with spare copies of its context, in file order, and its exit is
    /// given.
    pub fn exit(&mut self, config: &Config, stage: StageId)
        requires pipes { length config.now.pipe_ends ≤ 16 }
        requires numbers { HasNumbers self.old.staging 0 }
        requires copies { AreCopies self.old.spare (stage_in self.old.staging stage).context (length config.now.pipe_ends + 1) }
        requires room { length config.now.pipe_ends + 2 ≤ self.old.room }
        ensures { self.new.staging ≡ in_staging (λ s. exits config.now s stage) self.old.staging }
    {
        self.stages.exit(stage);
        self.note(Entry::Over(stage, How::Exited));
        self.give_exit(config, stage);
    }

    /// All pipes of a stage that have no end mark yet get one with a spare copy, in file order, and the
    /// stage's exit is given.
    pub fn give_exit(&mut self, config: &Config, stage: StageId)
        requires pipes { length config.now.pipe_ends ≤ 16 }
        requires numbers { HasNumbers self.old.staging 0 }
        requires copies { length config.now.pipe_ends ≤ self.old.spare.count }
        requires room { length config.now.pipe_ends + 1 ≤ self.old.room }
        ensures { self.new.staging ≡ in_staging (λ s. gives_exit config.now s stage self.old.spare.seen) self.old.staging }
    {
        self.close_pipes(config, stage);
        self.note(Entry::Give(stage, Token::Exit(stage)));
    }

    // All pipes of a stage that have no end mark yet get one with a spare copy, in file order.
    #[tactic(auto, using(crate::proofs::Closing::closes_more, crate::proofs::Closing::numbers_left))]
    fn close_pipes(&mut self, config: &Config, stage: StageId)
        requires pipes { length config.now.pipe_ends ≤ 16 }
        requires numbers { HasNumbers self.old.staging 0 }
        requires copies { length config.now.pipe_ends ≤ self.old.spare.count }
        requires room { length config.now.pipe_ends + 1 ≤ self.old.room }
        ensures closes { self.new.staging ≡ in_staging (λ s. closes_from config.now s stage self.old.spare.seen 1 config.now.pipe_ends) self.old.staging }
        ensures room { 1 ≤ self.new.room }
    {
        for place in 0..config.pipe_ends.len() {
            self.close_own(config, stage, place as u8 + 1);
        }
    }

    // A pipe gets its end mark with a spare copy, if it is from this stage and has none yet.
    fn close_own(&mut self, config: &Config, stage: StageId, pipe: u8)
        requires numbers { (pipe_in self.old.staging pipe).next + 1 < 2 ^ 32 }
        requires some { 0 < self.old.spare.count }
        requires room { 1 ≤ self.old.room }
        ensures closes { self.new.staging ≡ in_staging (λ s. if is_to_end config.now s stage pipe then closes s stage self.old.spare.seen pipe else s) self.old.staging }
        ensures room { self.old.room ≤ self.new.room + 1 }
        ensures left { self.old.spare.count ≤ self.new.spare.count + 1 }
        ensures others { 0 < self.new.spare.count → self.new.spare.seen ≡ self.old.spare.seen }
    {
        if self.is_to_end(config, stage, pipe) {
            self.end_pipe(stage, pipe);
        }
    }

    // Whether a pipe is from this stage and has no end mark yet.
    fn is_to_end(&self, config: &Config, stage: StageId, pipe: u8) -> bool
        ensures { result ≡ is_to_end config.now (assembled (at_step 0) self.now.staging no_traffic no_stores) stage pipe }
    {
        let number = stage.number();
        let ends = config.pipe_ends.as_slice();
        match ends.get(pipe.saturating_sub(1) as usize) {
            Some(ends) => ends.giver.number() == number && !self.pipes.is_marked(pipe),
            None => false,
        }
    }

    /// All pipes of a stage that have no end mark yet end bare, in file order.
    #[tactic(auto, using(crate::proofs::Closing::cuts_more))]
    pub fn cut_pipes(&mut self, config: &Config, stage: StageId)
        requires pipes { length config.now.pipe_ends ≤ 16 }
        ensures { self.new.staging ≡ in_staging (λ s. cuts_from config.now s stage 1 config.now.pipe_ends) self.old.staging }
    {
        for place in 0..config.pipe_ends.len() {
            self.cut_own(config, stage, place as u8 + 1);
        }
    }

    // A pipe ends bare, if it is from this stage and has no end mark yet.
    fn cut_own(&mut self, config: &Config, stage: StageId, pipe: u8)
        ensures { self.new.staging ≡ in_staging (λ s. if is_to_end config.now s stage pipe then cuts_pipe s pipe else s) self.old.staging }
    {
        if self.is_to_end(config, stage, pipe) {
            self.pipes.cut_off(pipe);
        }
    }
}
