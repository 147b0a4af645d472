//! How stages stand.

ghost use Rattle.std.specs.Prelude.{◌≡◌, ◌≤◌, length};
ghost use Rattle.rss_machine.specs.Standing.{stage_state as stage_state_of, stub_end as stub_end_by, stub_end_of, is_settled as is_settled_in, is_settled_within as is_settled_within_in, is_done as is_done_in};
ghost use Rattle.world_machine.specs.Machine.{state_of};

use crate::machine::Machine;
use file_orders::parent_of;
use rss_machine::{OwnerFate, StageState};
use rss_names::StageId;
use rss_tables::StubEnd;

impl Machine {
    /// How a stage stands; one that the file lacks is unborn.
    pub fn stage_state(&self, stage: StageId) -> StageState
        ensures { result ≡ stage_state_of (state_of self.now) stage }
    {
        match self.stage(stage) {
            Some(found) => found.standing(self.end_of(found.stub())),
            None => StageState::Unborn,
        }
    }

    // How the stub of this number has ended, if there is one and it has.
    fn end_of(&self, stub: Option<u32>) -> Option<StubEnd>
        ensures { result ≡ stub_end_of (state_of self.now) stub }
    {
        let Some(number) = stub else {
            return None;
        };
        stub_end(self.fate(number))
    }

    /// Whether a stage is settled: it is done, or it is unborn and the stage that spawns it is settled.
    pub fn is_settled(&self, stage: StageId) -> bool
        requires few { length self.now.config.bodies ≤ 16 }
        ensures { result ≡ is_settled_in self.now.config (state_of self.now) stage }
    {
        self.is_settled_within(16, stage)
    }

    // Whether a stage is settled, where so many stages are asked at most.
    #[tactic(auto, using(crate::proofs::Settled::settled_within))]
    fn is_settled_within(&self, left: u8, stage: StageId) -> bool
        requires few { length self.now.config.bodies ≤ 16 }
        ensures { result ≡ is_settled_within_in left self.now.config (state_of self.now) stage }
    {
        if left == 0 {
            return false;
        }
        match self.stage_state(stage) {
            StageState::Unborn => match StageId::new(parent_of(&self.config, stage)) {
                Some(parent) => self.is_settled_within(left - 1, parent),
                None => false,
            },
            StageState::Live => false,
            StageState::Exited => true,
            StageState::Ended(_, end) => end.is_some(),
        }
    }
}

// How a stub of this fate has ended, if it has.
fn stub_end(fate: OwnerFate) -> Option<StubEnd>
    ensures { result ≡ stub_end_by fate }
{
    match fate {
        OwnerFate::Running => None,
        OwnerFate::Dropped => None,
        OwnerFate::Ended => Some(StubEnd::Fenced),
        OwnerFate::CutOff(target) => Some(StubEnd::Unfenced(target)),
    }
}

/// Whether a stage has exited, or its stub is done.
pub fn is_done(state: StageState) -> bool
    ensures { result ≡ is_done_in state }
{
    match state {
        StageState::Unborn => false,
        StageState::Live => false,
        StageState::Exited => true,
        StageState::Ended(_, end) => end.is_some(),
    }
}
