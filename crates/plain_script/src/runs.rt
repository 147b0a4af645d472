//! Whether a stage runs its script.

ghost use Rattle.std.specs.Prelude.{◌↔◌, IsTrue, IfOk, Contains};
ghost use Rattle.rss_model.specs.Walk.{Walk, last_gives};
ghost use Rattle.rss_model.specs.ScriptRun.{IsWhole, ScriptRun};

use crate::table::final_table;
use pipeline_lang::Config;
use plain_walk::StageWalk;
use rss_model::History;
use rss_names::StageId;
use std::alloc::{AllocError, Global};

// Whether one of these walks may end here.
fn has_whole(
    alloc: Global,
    config: &Config,
    stage: u8,
    walks: &[StageWalk],
) -> Result<bool, AllocError>
    ensures { IfOk result (λ some. IsTrue some ↔ ((walk : Walk) × Contains walks.now walk ×
        IsWhole (last_gives config.now stage walk) walk.mode)) }
{
    for walk in walks {
        if walk.is_whole(alloc, config, stage)? {
            return Ok(true);
        }
    }
    Ok(false)
}

/// Whether the entries of a stage in a history are a prefix of what its script gives, up to an early
/// death, after which stands nothing, or all that an exit gives.
pub fn script_run(
    alloc: Global,
    config: &Config,
    h: &History,
    stage: StageId,
) -> Result<bool, AllocError>
    ensures { IfOk result (λ runs. IsTrue runs ↔ ScriptRun config.now h.now stage) }
{
    let table = final_table(alloc, config, h.as_slice())?;
    has_whole(
        alloc,
        config,
        stage.number(),
        table[stage.number() as usize].as_slice(),
    )
}
