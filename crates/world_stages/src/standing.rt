//! How stages stand, where the ends of their stubs are told.

ghost use Rattle.std.specs.Prelude.{◌≡◌, ◌+◌, ◌-◌, ◌≤◌, ◌<◌, ◌||◌, get_or, length, None};
ghost use Rattle.pipeline_lang.specs.Config.{ends_of};
ghost use Rattle.rss_tables.specs.Pipes.{has_room as has_place};
ghost use Rattle.std.specs.List.{list_any};
ghost use Rattle.rss_machine.specs.Standing.{life_state, is_done as done_by, is_hurt as hurt_by, is_unborn as unborn_by};
ghost use Rattle.rss_machine.specs.State.{Stage as StageRow};
ghost use Rattle.world_parts.specs.Parts.{stage_in, pipe_in};
ghost use Rattle.world_stages.specs.Settled.{standing_in, settled_in, can_make_in, all_settled_in};

use crate::parents::Parents;
use crate::staging::Staging;
use pipeline_lang::{Config, Statement};
use pipeline_stage::{NumberedStatement, Stage};
use rss_machine::StageState;
use rss_names::StageId;
use rss_tables::StubEnd;

impl Staging {
    /// How a stage stands, where its stub has ended so; one that the file lacks is unborn.
    pub fn stage_state(&self, stage: StageId, end: Option<StubEnd>) -> StageState
        ensures { result ≡ life_state (stage_in self.now.staging stage).life end }
    {
        match self.stages.get(stage) {
            Some(found) => found.standing(end),
            None => StageState::Unborn,
        }
    }

    // How the stage of a number stands, where the stub of stage number n has ended as place n - 1 tells.
    fn standing(&self, ends: &[Option<StubEnd>], number: u8) -> StageState
        ensures { result ≡ standing_in self.now.staging.stages ends.now number }
    {
        let place = number.saturating_sub(1) as usize;
        match self.stages.as_slice().get(place) {
            Some(found) => found.standing(end_at(ends, place)),
            None => StageState::Unborn,
        }
    }

    /// Whether the stage of a number is settled, where the stub of stage number n has ended as place
    /// n - 1 tells.
    pub fn is_settled(&self, parents: &Parents, ends: &[Option<StubEnd>], number: u8) -> bool
        ensures { result ≡ settled_in parents.now ends.now self.now.staging.stages 16 number }
    {
        self.is_settled_within(parents, ends, 16, number)
    }

    // The same, where so many parents are asked at most.
    fn is_settled_within(
        &self,
        parents: &Parents,
        ends: &[Option<StubEnd>],
        left: u8,
        number: u8,
    ) -> bool
        ensures { result ≡ settled_in parents.now ends.now self.now.staging.stages left number }
    {
        if left == 0 {
            return false;
        }
        let state = self.standing(ends, number);
        if !is_unborn(&state) {
            return is_done(state);
        }
        let parent = parents.of(number);
        parent > 0 && self.is_settled_within(parents, ends, left - 1, parent)
    }

    /// Whether all stages are settled.
    pub fn all_settled(&self, parents: &Parents, ends: &[Option<StubEnd>]) -> bool
        requires few { length self.now.staging.stages ≤ 16 }
        ensures { result ≡ all_settled_in parents.now ends.now self.now.staging.stages 1 (length self.now.staging.stages) }
    {
        self.all_settled_from(parents, ends, 1, self.stages.len() as u8)
    }

    // Whether all of these many stages from a number on are settled.
    #[tactic(auto, using(crate::proofs::Making::settled_one_more))]
    fn all_settled_from(
        &self,
        parents: &Parents,
        ends: &[Option<StubEnd>],
        number: u8,
        left: u8,
    ) -> bool
        requires last { number + left ≤ 17 }
        ensures { result ≡ all_settled_in parents.now ends.now self.now.staging.stages number left }
    {
        if left == 0 {
            return true;
        }
        self.is_settled(parents, ends, number)
            && self.all_settled_from(parents, ends, number + 1, left - 1)
    }

    /// Whether some stage was killed or unavailable.
    pub fn any_hurt(&self) -> bool
        ensures { result ≡ list_any (λ (stage : StageRow). hurt_by (life_state stage.life None)) self.now.staging.stages }
    {
        is_any_hurt(self.stages.as_slice())
    }

    /// Whether a stage can make this statement, where the stub of stage number n has ended as place
    /// n - 1 tells.
    pub fn can_make(
        &self,
        config: &Config,
        parents: &Parents,
        ends: &[Option<StubEnd>],
        statement: &NumberedStatement,
    ) -> bool
        ensures { result ≡ can_make_in config.now parents.now ends.now self.now.staging statement.now }
    {
        match statement {
            Statement::Wait(child) => is_done(self.standing(ends, child.number())),
            Statement::Put(pipe, _) => self.can_put(config, parents, ends, *pipe),
            Statement::Take(_, pipe) => self.pipes.can_take(*pipe),
            _ => true,
        }
    }

    // Whether a chunk can be put into a pipe: there is room, or nobody will take it.
    fn can_put(
        &self,
        config: &Config,
        parents: &Parents,
        ends: &[Option<StubEnd>],
        pipe: u8,
    ) -> bool
        ensures { result ≡ (has_place (pipe_in self.now.staging pipe) (ends_of config.now pipe).capacity || settled_in parents.now ends.now self.now.staging.stages 16 (ends_of config.now pipe).taker) }
    {
        match config
            .pipe_ends
            .as_slice()
            .get(pipe.saturating_sub(1) as usize)
        {
            Some(found) => {
                let taker = found.taker.number();
                self.pipes.has_room(pipe, found.capacity) || self.is_settled(parents, ends, taker)
            }
            None => self.pipes.has_room(pipe, 0) || self.is_settled(parents, ends, 0),
        }
    }
}

// Whether some of these stages was killed or unavailable.
fn is_any_hurt(stages: &[Stage]) -> bool
    ensures { result ≡ list_any (λ (stage : StageRow). hurt_by (life_state stage.life None)) stages.now }
{
    for stage in stages {
        if is_hurt(stage.standing(None)) {
            return true;
        }
    }
    false
}

// How the stub at a place has ended, if it has.
fn end_at(ends: &[Option<StubEnd>], place: usize) -> Option<StubEnd>
    ensures { result ≡ get_or ends.now place None }
{
    match ends.get(place) {
        Some(end) => *end,
        None => None,
    }
}

/// Whether a stage has exited, or its stub is done.
pub fn is_done(state: StageState) -> bool
    ensures { result ≡ done_by state }
{
    match state {
        StageState::Unborn | StageState::Live => false,
        StageState::Exited => true,
        StageState::Ended(_, end) => end.is_some(),
    }
}

/// Whether a stage was killed or unavailable.
pub fn is_hurt(state: StageState) -> bool
    ensures { result ≡ hurt_by state }
{
    match state {
        StageState::Unborn | StageState::Live | StageState::Exited => false,
        StageState::Ended(_, _) => true,
    }
}

// Whether a stage is unborn.
fn is_unborn(state: &StageState) -> bool
    ensures { result ≡ unborn_by state.now }
{
    match state {
        StageState::Unborn => true,
        StageState::Live => false,
        StageState::Exited => false,
        StageState::Ended(_, _) => false,
    }
}
