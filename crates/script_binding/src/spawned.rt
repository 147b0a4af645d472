//! The stages that scripts spawn.

ghost use Rattle.std.specs.Prelude.{◌≡◌, ◌++◌, OnOk};
ghost use Rattle.script_binding.specs.Environment.{spawns, spawned_in};

use crate::environment::{BoundStatement, push_stage};
use pipeline_lang::{Script, Statement};
use rss_names::{Seq, StageId};
use std::alloc::AllocError;

// Appends the stages that a statement spawns.
fn put_spawned(spawned: &mut Seq<StageId>, statement: &BoundStatement) -> Result<(), AllocError>
    ensures { OnOk result (spawned.new ≡ spawned.old ++ spawns statement.now) }
{
    match statement {
        Statement::Spawn(stage) => push_stage(spawned, *stage),
        _ => Ok(()),
    }
}

/// Appends the stages that a script spawns.
pub fn add_spawned(spawned: &mut Seq<StageId>, script: &Script) -> Result<(), AllocError>
    ensures { OnOk result (spawned.new ≡ spawned.old ++ spawned_in script.now) }
{
    for statement in script.as_slice() {
        put_spawned(spawned, statement)?;
    }
    Ok(())
}
