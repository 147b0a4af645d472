//! When stages and stubs can go on.

ghost use Rattle.std.specs.Prelude.{◌≡◌, ◌+◌, ◌<◌, ◌≤◌, ◌||◌, length, get_or, is_some, Some};
ghost use Rattle.std.specs.List.{list_any};
ghost use Rattle.owner_turns.specs.Going.{line_of, PlaceFits};
ghost use Rattle.pipeline_lang.specs.Config.{ends_of};
ghost use Rattle.rss_machine.specs.Effect.{waking_line};
ghost use Rattle.rss_machine.specs.Enabling.{act_enabling as act_enabling_of, stub_enabling as stub_enabling_of, stub_enabling_of as enabling_of_stub, owner_enabling as owner_enabling_of, can_make as can_make_in, can_wake, next_statement, whether as whether_of};
ghost use Rattle.rss_machine.specs.Standing.{is_settled as is_settled_in};
ghost use Rattle.rss_machine.specs.State.{owner_at, pipe_at, stage_at};
ghost use Rattle.rss_tables.specs.Lines.{no_line};
ghost use Rattle.rss_tables.specs.Pipes.{has_room as has_place};
ghost use Rattle.turn_laws.specs.Turns.{lines_in};
ghost use Rattle.world_machine.specs.Asking.{CanAsk, HoldersThere};
ghost use Rattle.world_machine.specs.Machine.{state_of};
ghost use Rattle.world_machine.specs.Statements.{PipesFit, PipeFits};

use crate::machine::Machine;
use crate::standing::is_done;
use owner_turns::{Owner, OwnerEnabling};
use pipeline_lang::Statement;
use pipeline_stage::NumberedStatement;
use rss_machine::{Enabling, Life};
use rss_names::StageId;

impl Machine {
    /// When a stage can act: its call or fence goes on, or its next statement can be made.
    #[tactic(auto, using(crate::proofs::Enabled::live_idle, crate::proofs::Enabled::live_owner))]
    pub fn act_enabling(&self, stage: StageId) -> Enabling
        requires can { CanAsk self.now }
        ensures { result ≡ act_enabling_of self.now.config (state_of self.now) stage }
    {
        match self.life(stage) {
            Life::Unborn => Enabling::Never,
            Life::Live => match self.owner_of(stage) {
                Some(owner) => self.owner_enabling(owner),
                None => whether(self.can_make_next(stage)),
            },
            Life::Over(_) => Enabling::Never,
        }
    }

    // When the owner of a number can go on by itself.
    #[tactic(auto, using(crate::proofs::Enabled::enabling_told))]
    fn owner_enabling(&self, number: u32) -> Enabling
        requires holders { HoldersThere (state_of self.now) (lines_in (owner_at (state_of self.now) number).session) }
        ensures { result ≡ owner_enabling_of (state_of self.now) (owner_at (state_of self.now) number).works.wait (owner_at (state_of self.now) number).session }
    {
        let Some(owner) = self.owner(number) else {
            return Enabling::Never;
        };
        match owner.enabling() {
            OwnerEnabling::Never => Enabling::Never,
            OwnerEnabling::After(time) => Enabling::After(time),
            OwnerEnabling::Lines => whether(self.waking(owner).is_some()),
            OwnerEnabling::Always => Enabling::Always,
        }
    }

    /// The place of the first line of an owner that can wake, if one can.
    #[tactic(auto, using(crate::proofs::Enabled::wakes_next, crate::proofs::Enabled::any_next, crate::proofs::Enabled::wakes_none, crate::proofs::Enabled::any_none))]
    pub(crate) fn waking(&self, owner: &Owner) -> Option<usize>
        requires holders { HoldersThere (state_of self.now) (lines_in owner.now.row.session) }
        ensures line { line_of owner.now.row.session result ≡ waking_line (state_of self.now) (lines_in owner.now.row.session) }
        ensures place { PlaceFits owner.now.row.session result }
        ensures some { is_some result ≡ list_any (can_wake (state_of self.now)) (lines_in owner.now.row.session) }
    {
        for line in 0..owner.lines() {
            if self.wakes(owner, line) {
                return Some(line);
            }
        }
        None
    }

    // Whether the line of a place can wake: the holder that it waits for is decided at its coordinator.
    fn wakes(&self, owner: &Owner, line: usize) -> bool
        requires within { line < length (lines_in owner.now.row.session) }
        requires holders { HoldersThere (state_of self.now) (lines_in owner.now.row.session) }
        ensures { result ≡ can_wake (state_of self.now) (get_or (lines_in owner.now.row.session) line no_line) }
    {
        match owner.asleep_on(line) {
            Some(holder) => self.stores.is_decided(&holder),
            None => false,
        }
    }

    /// When the stub of a stage can go on.
    #[tactic(auto, using(crate::proofs::Enabled::stub_told))]
    pub fn stub_enabling(&self, stage: StageId) -> Enabling
        ensures { result ≡ stub_enabling_of (state_of self.now) stage }
    {
        match self.stub_of(stage) {
            Some(stub) => self.enabling_of_stub(stub),
            None => Enabling::Never,
        }
    }

    // When the stub of a number can go on.
    #[tactic(auto, using(crate::proofs::Enabled::stub_told))]
    fn enabling_of_stub(&self, number: u32) -> Enabling
        ensures { enabling_of_stub (state_of self.now) (Some number) ≡ result }
    {
        let Some(owner) = self.owner(number) else {
            return Enabling::Never;
        };
        match owner.stub_enabling() {
            OwnerEnabling::Never => Enabling::Never,
            OwnerEnabling::After(time) => Enabling::After(time),
            OwnerEnabling::Lines => Enabling::Never,
            OwnerEnabling::Always => Enabling::Always,
        }
    }

    // Whether a stage can make its next statement.
    #[tactic(auto, using(crate::proofs::Enabled::fits_next))]
    fn can_make_next(&self, stage: StageId) -> bool
        requires can { CanAsk self.now }
        ensures { result ≡ can_make_in self.now.config (state_of self.now) (next_statement self.now.config (state_of self.now) stage) }
    {
        // for its clauses alone: stages are numbered from 1
        let _number = stage.number();
        match self.staging.next_statement(&self.config, stage) {
            Some(statement) => self.can_make(statement),
            None => true,
        }
    }

    // Whether a stage can make a statement.
    fn can_make(&self, statement: &NumberedStatement) -> bool
        requires few { length self.now.config.bodies ≤ 16 }
        requires pipes { PipesFit self.now.config statement.now }
        ensures { result ≡ can_make_in self.now.config (state_of self.now) statement.now }
    {
        match statement {
            Statement::Wait(child) => is_done(self.stage_state(*child)),
            Statement::Put(pipe, _) => self.can_put(*pipe),
            Statement::Take(_, pipe) => self.staging.can_take(*pipe),
            _ => true,
        }
    }

    // Whether a chunk can be put into a pipe: there is room, or nobody will take it.
    fn can_put(&self, pipe: u8) -> bool
        requires few { length self.now.config.bodies ≤ 16 }
        requires pipe { PipeFits self.now.config pipe }
        ensures { result ≡ (has_place (pipe_at (state_of self.now) pipe) (ends_of self.now.config pipe).capacity || is_settled_in self.now.config (state_of self.now) (ends_of self.now.config pipe).taker) }
    {
        let ends = &self.config.pipe_ends.as_slice()[(pipe - 1) as usize];
        self.staging.has_room(pipe, ends.capacity) || self.is_settled(ends.taker)
    }

    /// Whether the taker of a pipe is settled.
    pub(crate) fn is_taker_settled(&self, pipe: u8) -> bool
        requires few { length self.now.config.bodies ≤ 16 }
        requires pipe { PipeFits self.now.config pipe }
        ensures { result ≡ is_settled_in self.now.config (state_of self.now) (ends_of self.now.config pipe).taker }
    {
        let ends = &self.config.pipe_ends.as_slice()[(pipe - 1) as usize];
        self.is_settled(ends.taker)
    }
}

// Enabled or not, whatever the reading.
fn whether(enabled: bool) -> Enabling
    ensures { result ≡ whether_of enabled }
{
    if enabled {
        Enabling::Always
    } else {
        Enabling::Never
    }
}
