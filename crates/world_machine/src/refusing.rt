//! Refusals: why a step is not made.

ghost use Rattle.std.specs.Prelude.{◌≡◌};
ghost use Rattle.std.specs.Option.{option_map};
ghost use Rattle.rss_machine.specs.Enabling.{is_enabled_at};
ghost use Rattle.rss_machine.specs.Refusal.{kind_refusal as kind_refusal_of, refusal as refusal_of, unless_enabled};
ghost use Rattle.rss_machine.specs.Standing.{is_live as is_live_life, is_over as is_over_life};
ghost use Rattle.rss_machine.specs.State.{stage_at};
ghost use Rattle.truetime.specs.Reading.{Reading};
ghost use Rattle.world_machine.specs.Machine.{state_of};
ghost use Rattle.world_machine.specs.Asking.{CanAsk};

use crate::machine::Machine;
use rss_machine::{Enabling, Life, Step, StepKind, StepRefusal};
use rss_names::StageId;
use rss_wire::NetRefusal;
use truetime::{Contradiction, Interval};

impl Machine {
    /// Why a step is refused, if it is: the first cause that applies.
    #[tactic(auto, unfolding(rss_machine::specs::Refusal::refusal))]
    pub fn refusal(&self, s: &Step) -> Option<StepRefusal>
        requires can { CanAsk self.now }
        ensures { result ≡ refusal_of self.now.config (state_of self.now) s.now }
    {
        if self.clock.steps >= self.config.max_steps {
            return Some(StepRefusal::LogFull);
        }
        let at = s.at;
        let latest = at.latest();
        let greatest_earliest = self.clock.moment.greatest();
        if latest < greatest_earliest {
            let contradiction = Contradiction {
                greatest_earliest,
                latest,
            };
            return Some(StepRefusal::Reading(contradiction));
        }
        self.kind_refusal(at, s.kind)
    }

    // Why a step of this kind is refused, if its reading is admitted.
    fn kind_refusal(&self, at: Interval, kind: StepKind) -> Option<StepRefusal>
        requires can { CanAsk self.now }
        ensures { result ≡ kind_refusal_of self.now.config (state_of self.now) at kind }
    {
        match kind {
            StepKind::Act(stage) => self.act_refusal(at, stage),
            StepKind::Go(message) => refused(self.traffic.deliver_refusal(message)),
            StepKind::Lose(message) => refused(self.traffic.lose_refusal(message)),
            StepKind::Again(message) => refused(self.traffic.again_refusal(message)),
            StepKind::Kill(stage) => self.kill_refusal(stage),
            StepKind::Stub(stage) => unless(is_enabled(self.stub_enabling(stage), at.earliest())),
        }
    }

    // Why an act of a stage is refused.
    fn act_refusal(&self, at: Interval, stage: StageId) -> Option<StepRefusal>
        requires can { CanAsk self.now }
        ensures { result ≡ kind_refusal_of self.now.config (state_of self.now) at (StepKind.Act stage) }
    {
        if is_over(self.life(stage)) {
            return Some(StepRefusal::StageOver);
        }
        unless(is_enabled(self.act_enabling(stage), at.earliest()))
    }

    // Why the kill of a stage is refused.
    fn kill_refusal(&self, stage: StageId) -> Option<StepRefusal>
        ensures { (at : Reading) → kind_refusal_of self.now.config (state_of self.now) at (StepKind.Kill stage) ≡ result }
    {
        let life = self.life(stage);
        if is_over(life) {
            return Some(StepRefusal::StageOver);
        }
        unless(is_live(life))
    }
}

// Enabled in a step whose reading begins at this time.
fn is_enabled(enabling: Enabling, earliest: u64) -> bool
    ensures { result ≡ is_enabled_at enabling earliest }
{
    match enabling {
        Enabling::Never => false,
        Enabling::Always => true,
        Enabling::After(time) => time < earliest,
    }
}

// Whether a stage lives.
fn is_live(life: Life) -> bool
    ensures { result ≡ is_live_life life }
{
    match life {
        Life::Unborn => false,
        Life::Live => true,
        Life::Over(_) => false,
    }
}

// Whether a stage is over.
fn is_over(life: Life) -> bool
    ensures { result ≡ is_over_life life }
{
    match life {
        Life::Unborn => false,
        Life::Live => false,
        Life::Over(_) => true,
    }
}

// Not enabled, or nothing.
fn unless(enabled: bool) -> Option<StepRefusal>
    ensures { result ≡ unless_enabled enabled }
{
    if enabled {
        None
    } else {
        Some(StepRefusal::NotEnabled)
    }
}

// The refusal of a step whose message refuses it, if it does.
fn refused(cause: Option<NetRefusal>) -> Option<StepRefusal>
    ensures { result ≡ option_map StepRefusal.Message cause }
{
    match cause {
        Some(cause) => Some(StepRefusal::Message(cause)),
        None => None,
    }
}
