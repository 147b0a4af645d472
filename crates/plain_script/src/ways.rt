//! The states to which walks come without an entry.

ghost use Rattle.std.specs.Prelude.{◌≡◌, ◌++◌, IfOk, OnOk};
ghost use Rattle.std.specs.List.{flat_map};
ghost use Rattle.plain_script.specs.Standing.{way};

use pipeline_lang::Config;
use plain_walk::{StageWalk, silent_step};
use rss_model::Entry;
use std::alloc::{AllocError, Global};

// Adds a walk and the states to which it comes without an entry.
fn add_way(
    alloc: Global,
    config: &Config,
    h: &[Entry],
    stage: u8,
    walks: &mut Vec<StageWalk>,
    base: &StageWalk,
) -> Result<(), AllocError>
    ensures { OnOk result (walks.new.items ≡
        walks.old.items ++ way config.now h.now stage base.now) }
{
    let mut standing = Some(base.try_clone(alloc)?);
    while let Some(walk) = standing {
        standing = silent_step(alloc, config, h, stage, &walk)?;
        walks.push(walk)?;
    }
    Ok(())
}

/// These walks and the states to which they come without an entry.
pub(crate) fn states_at(
    alloc: Global,
    config: &Config,
    h: &[Entry],
    stage: u8,
    bases: &[StageWalk],
) -> Result<Vec<StageWalk>, AllocError>
    ensures { IfOk result (λ walks.
        walks.items ≡ flat_map (way config.now h.now stage) bases.now) }
{
    let mut walks = Vec::new(alloc);
    for base in bases {
        add_way(alloc, config, h, stage, &mut walks, base)?;
    }
    Ok(walks)
}
