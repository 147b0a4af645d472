//! The steps of the policy, made one after another.

ghost use Rattle.std.specs.Prelude.{◌≡◌, IfOk, OnOk};
ghost use Rattle.serial_run.specs.Made.{IsSerial};
ghost use Rattle.event_world.specs.World.{IsNew};
ghost use Rattle.policy_laws.specs.Laws.{HasEnded};
ghost use Rattle.world_laws.specs.Shapes.{IsSoundFile};

use crate::clock::Stepping;
use crate::policy::{stage_under_way, step_of};
use event_world::World;
use pipeline_lang::Config;
use rss_names::StageId;
use std::alloc::{AllocError, Global};

/// The World of a file after all steps of the serial policy, which driver 0 makes: one stage after
/// another makes its steps, until no stage has a step or the log is full.
///
/// The loop keeps: the log, and behind it what the policy makes from here with the steps that are left,
/// are what the policy makes from the beginning (`IsUnderWay`). None of these steps is refused, since
/// each is a stage's turn, and the clock is ahead of the true moment.
///
/// # Errors
///
/// Memory is wanting.
pub fn serial(alloc: Global, config: Config) -> Result<World, AllocError>
    requires sound { IsSoundFile config }
    ensures made { IfOk result (λ w. IsSerial config w) }
    ensures ended { IfOk result (λ w. HasEnded config w.state) }
{
    let mut world = World::new(alloc, config)?;
    make_steps(&mut world)?;
    Ok(world)
}

// Makes the steps of the policy, from the first on.
fn make_steps(world: &mut World) -> Result<(), AllocError>
    requires first { IsNew world.old world.old.config }
    ensures made { OnOk result (IsSerial world.old.config world.new) }
{
    let mut clock = Stepping::new(1000, 10, 5);
    let mut stage = StageId::new(1).unwrap();
    let mut left = world.config().max_steps;
    while left > 0 {
        // for its clauses alone: the log is the run that led here
        let _log = world.log();
        let Some(next) = stage_under_way(world, stage) else {
            return Ok(());
        };
        let Some(step) = step_of(&mut clock, world.next_for(next)) else {
            return Ok(());
        };
        world.make_room(&step)?;
        world.step(&step, 0).unwrap();
        stage = next;
        left -= 1;
    }
    let _log = world.log();
    Ok(())
}
