//! Stages that spawn others.

ghost use Rattle.std.specs.Prelude.{◌≡◌, ◌≤◌, length};
ghost use Rattle.std.specs.List.{list_any};
ghost use Rattle.rss_machine.specs.Standing.{parent_of as parent_of_in};
ghost use Rattle.rss_model.specs.Scripts.{spawns as statement_spawns};

use pipeline_lang::{Config, Statement};
use rss_names::{Key, StageId};

type NumberedStatement = Statement<u8, Key, StageId, u8>;

/// The number of the stage that spawns this one; 0 for a stage that none spawns.
pub fn parent_of(config: &Config, child: StageId) -> u8
    requires few { length config.now.bodies ≤ 16 }
    ensures same { result ≡ parent_of_in config.now child }
    ensures few { result ≤ 16 }
{
    let child = child.number();
    let mut number = 1;
    for body in config.bodies.as_slice() {
        if script_spawns(child, body.script.as_slice()) {
            return number;
        }
        number += 1;
    }
    0
}

// Whether a script spawns a stage.
fn script_spawns(stage: u8, script: &[NumberedStatement]) -> bool
    ensures { result ≡ list_any (statement_spawns stage) script.now }
{
    script.iter().any(|statement| spawns(stage, statement))
}

// Whether a statement spawns a stage.
fn spawns(stage: u8, statement: &NumberedStatement) -> bool
    ensures { result ≡ statement_spawns stage statement.now }
{
    match statement {
        Statement::Spawn(child) => child.number() == stage,
        _ => false,
    }
}
