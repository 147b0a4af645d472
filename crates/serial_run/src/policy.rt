//! The policy: whose step it is, and with which reading.

ghost use Rattle.std.specs.Prelude.{◌≡◌, ◌≤◌, ◌+◌, IfSome, IfNone, Some, None};
ghost use Rattle.rss_machine.specs.Serial.{turn_step, has_step as is_step, first_stage as first_stage_in, stage_under_way as stage_under_way_in};
ghost use Rattle.serial_run.specs.Made.{number_of};

use crate::clock::Stepping;
use event_world::World;
use rss_machine::{Step, Turn};
use rss_names::StageId;

/// The step of a turn, if it is one, with the next reading of the clock. The clock may have none above
/// the time that a turn waits for.
pub(crate) fn step_of(clock: &mut Stepping, turn: Turn) -> Option<Step>
    ensures made { IfSome result (λ step. turn_step clock.old turn ≡ Some (step, clock.new)) }
    ensures none { IfNone result (turn_step clock.old turn ≡ None) }
{
    match turn {
        Turn::Step(kind) => {
            let at = clock.reading();
            Some(Step { kind, at })
        }
        Turn::Past(kind, time) => match clock.past(time) {
            Some(at) => Some(Step { kind, at }),
            None => None,
        },
        Turn::Blocked(_) => None,
        Turn::Unborn => None,
        Turn::Over => None,
    }
}

/// The stage whose step is made: the one under way while it has one, and else the first.
pub(crate) fn stage_under_way(world: &World, stage: StageId) -> Option<StageId>
    ensures { number_of result ≡ stage_under_way_in world.now.config world.now.state stage }
{
    if has_step(&world.next_for(stage)) {
        Some(stage)
    } else {
        first_stage(world, 1, world.stages())
    }
}

// The first of these many stages from a number on that has a step.
#[tactic(auto, using(crate::proofs::Stages::one_stage_more))]
fn first_stage(world: &World, number: u8, left: u8) -> Option<StageId>
    requires first { 1 ≤ number }
    requires last { number + left ≤ 17 }
    ensures { number_of result ≡ first_stage_in world.now.config world.now.state number left }
{
    if left == 0 {
        return None;
    }
    match StageId::new(number) {
        Some(stage) => {
            if has_step(&world.next_for(stage)) {
                Some(stage)
            } else {
                first_stage(world, number + 1, left - 1)
            }
        }
        None => None,
    }
}

// Whether a turn is a step.
fn has_step(turn: &Turn) -> bool
    ensures { result ≡ is_step turn.now }
{
    match turn {
        Turn::Step(_) => true,
        Turn::Past(_, _) => true,
        Turn::Blocked(_) => false,
        Turn::Unborn => false,
        Turn::Over => false,
    }
}
