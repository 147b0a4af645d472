//! Steps of a list, made one after another.

ghost use Rattle.std.specs.Prelude.{◌≡◌, ◌≤◌, ◌++◌, IfOk, IfErr};
ghost use Rattle.world_laws.specs.Shapes.{IsSoundFile};
ghost use Rattle.rss_cli.specs.Played.{HasPlayed, IsPlayError};

use event_world::World;
use pipeline_lang::Config;
use rss_machine::{Step, StepRefusal};
use std::alloc::{AllocError, Global};
use thiserror::Error;

/// Why not all steps were made.
#[derive(Clone, Copy, Debug, PartialEq, Eq, Error)]
pub enum PlayError {
    /// The first step that was refused: its number, counted from 1, and the cause.
    #[error("step {number} is refused: {cause}")]
    Refused { number: u64, cause: StepRefusal },
    /// Memory is wanting.
    #[error("out of memory")]
    OutOfMemory,
}

/// The World of a configuration after these steps, all of which driver 0 makes.
///
/// # Errors
///
/// - `Refused` names the first step that the World refuses, and the cause.
/// - `OutOfMemory`, where memory is wanting.
pub fn play(alloc: Global, config: Config, steps: &[Step]) -> Result<World, PlayError>
    requires sound { IsSoundFile config }
    ensures played { IfOk result (λ w. HasPlayed config steps.now w) }
    ensures refused { IfErr result (λ e. IsPlayError config steps.now e) }
{
    let mut world = match World::new(alloc, config) {
        Ok(world) => world,
        Err(_) => return Err(PlayError::OutOfMemory),
    };
    for (before, step) in steps.iter().enumerate() {
        match world.make_room(step) {
            Ok(()) => {}
            Err(_) => return Err(PlayError::OutOfMemory),
        }
        let _log = world.log();
        match world.step(step, 0) {
            Ok(()) => {}
            Err(cause) => {
                let number = before as u64 + 1;
                return Err(PlayError::Refused { number, cause });
            }
        }
    }
    let _log = world.log();
    Ok(world)
}
