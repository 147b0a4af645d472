//! What a configuration says of scripts and of pipes.

ghost use Rattle.std.specs.Prelude.{◌≡◌, ◌+◌, ◌<◌, ◌≤◌, ◌^◌, length};
ghost use Rattle.std.specs.List.{list_any};
ghost use Rattle.std.specs.Option.{option_copied, OnSome};
ghost use Rattle.pipeline_lang.specs.Config.{script_of as script_of_stage};
ghost use Rattle.rss_model.specs.Scripts.{giver_of as giver_of_pipe, is_spawned as some_spawns, spawns as statement_spawns};
ghost use Rattle.rss_model.specs.Cursor.{statements_to_end as to_end, depth_after as depth_behind};
ghost use Rattle.plain_walk.specs.Found.{found_statement};

use crate::walk::{Mode, StageWalk};
use pipeline_lang::{Config, Statement};
use rss_names::{Key, StageId};

/// A statement over numbers.
pub(crate) type NumberedStatement = Statement<u8, Key, StageId, u8>;

/// The script of a stage, by its number from 1: no statement where the file lacks the stage.
pub(crate) fn script_of(config: &Config, stage: u8) -> &[NumberedStatement]
    ensures { result.now ≡ script_of_stage config.now stage }
{
    match config
        .bodies
        .as_slice()
        .get(stage.saturating_sub(1) as usize)
    {
        Some(body) => body.script.as_slice(),
        None => &[],
    }
}

/// The number of the stage that puts into a pipe, 0 where the file lacks the pipe.
pub fn giver_of(config: &Config, pipe: u8) -> u8
    ensures { result ≡ giver_of_pipe config.now pipe }
{
    match config
        .pipe_ends
        .as_slice()
        .get(pipe.saturating_sub(1) as usize)
    {
        Some(ends) => ends.giver.number(),
        None => 0,
    }
}

// Whether a statement spawns a stage.
fn spawns(stage: u8, statement: &NumberedStatement) -> bool
    ensures { result ≡ statement_spawns stage statement.now }
{
    match statement {
        Statement::Spawn(child) => child.number() == stage,
        _ => false,
    }
}

// Whether a script spawns a stage.
fn script_spawns(stage: u8, script: &[NumberedStatement]) -> bool
    ensures { result ≡ list_any (statement_spawns stage) script.now }
{
    script.iter().any(|statement| spawns(stage, statement))
}

/// Whether some script spawns a stage.
pub(crate) fn is_spawned(config: &Config, stage: u8) -> bool
    ensures { result ≡ some_spawns config.now stage }
{
    config
        .bodies
        .as_slice()
        .iter()
        .any(|body| script_spawns(stage, body.script.as_slice()))
}

/// The statement that comes next, if the walk is before one that stands in its script.
pub(crate) fn next_statement<'a>(
    script: &'a [NumberedStatement],
    walk: &StageWalk,
) -> Option<&'a NumberedStatement>
    ensures same { option_copied result ≡ found_statement script.now walk.now }
    ensures within { OnSome result (walk.now.cursor.position < length script.now) }
    ensures room { OnSome result (walk.now.cursor.position + 1 < 2 ^ 64) }
{
    match walk.mode {
        Mode::Ready => script.get(walk.position),
        Mode::Unborn | Mode::InCall(_) | Mode::Over(_, _) => None,
    }
}

// How many blocks are open behind a statement, where so many are open before it.
fn depth_after(statement: &NumberedStatement, depth: usize) -> usize
    requires { depth + 1 < 2 ^ 64 }
    ensures same { result ≡ depth_behind statement.now depth }
    ensures most { result ≤ depth + 1 }
{
    match statement {
        Statement::Repeat(_) | Statement::When(_) => depth + 1,
        Statement::End => depth.saturating_sub(1),
        _ => depth,
    }
}

/// How many statements stand up to the `end` that closes the block, with it.
#[tactic(auto, unfolding(rss_model::specs::Cursor::statements_to_end))]
pub(crate) fn statements_to_end(statements: &[NumberedStatement]) -> usize
    ensures same { result ≡ to_end 1 statements.now }
    ensures within { result ≤ length statements.now }
{
    let mut depth = 1;
    for (place, statement) in statements.iter().enumerate() {
        if depth == 0 {
            return place;
        }
        depth = depth_after(statement, depth);
    }
    statements.len()
}
