//! What a stage that is over gives.

ghost use Rattle.std.specs.Prelude.{◌≡◌, ◌↔◌, IsTrue, map, IfOk};
ghost use Rattle.rss_model.specs.Walk.{last_gives as gives_last, over_as as over_by};
ghost use Rattle.rss_model.specs.ScriptRun.{NothingOrAll, IsWhole};
ghost use Rattle.rss_model.specs.Tokens.{same_token};
ghost use Rattle.script_laws.specs.Entries.{paid};
ghost use Rattle.plain_walk.specs.Walks.{token_of};

use crate::walk::{Mode, Owed, StageWalk};
use pipeline_lang::Config;
use rss_model::{How, Token};
use std::alloc::{AllocError, Global};

// Whether nothing is owed any more, or still all.
fn is_nothing_or_all(owed: &[Owed], all: &[Owed]) -> bool
    ensures { IsTrue result ↔ NothingOrAll (map token_of owed.now) (map token_of all.now) }
{
    owed.is_empty() || owed == all
}

impl Owed {
    /// Whether this is a token.
    pub(crate) fn is_token(self, token: &Token) -> bool
        ensures { result ≡ same_token (token_of self) token.now }
    {
        match self {
            Owed::EndMark(pipe, number) => match token {
                Token::Chunk(into, chunk) => pipe == *into as usize && number == *chunk as u64,
                Token::Spawn(_) | Token::Exit(_) => false,
            },
            Owed::Exit(stage) => match token {
                Token::Exit(exited) => stage == exited.number(),
                Token::Spawn(_) | Token::Chunk(_, _) => false,
            },
        }
    }
}

impl StageWalk {
    /// What the stage gives at its exit: the end marks in file order, and then its exit.
    #[tactic(auto, unfolding(rss_model::specs::Walk::end_marks))]
    pub(crate) fn last_gives(
        &self,
        alloc: Global,
        config: &Config,
        stage: u8,
    ) -> Result<Vec<Owed>, AllocError>
        ensures { IfOk result (λ owed.
            map token_of owed.items ≡ gives_last config.now stage self.now) }
    {
        let mut owed = Vec::new(alloc);
        for (place, ends) in config.pipe_ends.as_slice().iter().enumerate() {
            let pipe = place + 1;
            if ends.giver.number() == stage && !self.is_closed(pipe) {
                owed.push(Owed::EndMark(pipe, self.next_given(pipe)))?;
            }
        }
        owed.push(Owed::Exit(stage))?;
        Ok(owed)
    }

    /// Over, with all of it still to give.
    pub(crate) fn over_as(
        &self,
        alloc: Global,
        config: &Config,
        stage: u8,
        how: How,
    ) -> Result<StageWalk, AllocError>
        ensures { IfOk result (λ next. next ≡ over_by config.now stage self.now how) }
    {
        let owed = self.last_gives(alloc, config, stage)?;
        self.in_mode(alloc, Mode::Over(how, owed))
    }

    /// Behind this token, if it is what the stage owes first.
    pub(crate) fn pay(
        &self,
        alloc: Global,
        how: How,
        owed: &[Owed],
        token: &Token,
    ) -> Result<Option<StageWalk>, AllocError>
        ensures { IfOk result (λ next.
            next ≡ paid self.now how (map token_of owed.now) token.now) }
    {
        match owed.first() {
            Some(first) => {
                if !first.is_token(token) {
                    return Ok(None);
                }
                let left = Vec::from_slice(alloc, &owed[1..])?;
                Ok(Some(self.in_mode(alloc, Mode::Over(how, left))?))
            }
            None => Ok(None),
        }
    }

    /// Whether the walk may end here: not in the middle of what follows a death.
    pub fn is_whole(&self, alloc: Global, config: &Config, stage: u8) -> Result<bool, AllocError>
        ensures { IfOk result (λ whole.
            IsTrue whole ↔ IsWhole (gives_last config.now stage self.now) self.now.mode) }
    {
        match &self.mode {
            Mode::Unborn | Mode::Ready | Mode::InCall(_) | Mode::Over(How::Exited, _) => Ok(true),
            Mode::Over(How::Killed | How::Unavailable, owed) => {
                let all = self.last_gives(alloc, config, stage)?;
                Ok(is_nothing_or_all(owed, &all))
            }
        }
    }
}
