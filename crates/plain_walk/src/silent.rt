//! Steps of a walk without an entry.

ghost use Rattle.std.specs.Prelude.{◌≡◌, ◌+◌, ◌<◌, ◌^◌, length, IfOk};
ghost use Rattle.pipeline_lang.specs.Config.{script_of as script_of_stage};
ghost use Rattle.script_laws.specs.Steps.{is_dry as gives_no_more, silent_at as silent_by, silent_step as silent_from};

use crate::history::{gave_past, is_dead};
use crate::script::{NumberedStatement, giver_of, next_statement, script_of};
use crate::walk::StageWalk;
use pipeline_lang::{Config, Statement};
use rss_model::Entry;
use std::alloc::{AllocError, Global};

// Whether a pipe gives no more: its giver is dead, and all that it gave was taken.
fn is_dry(config: &Config, h: &[Entry], walk: &StageWalk, pipe: u8) -> bool
    ensures { result ≡ gives_no_more config.now h.now walk.now pipe }
{
    let giver = giver_of(config, pipe);
    is_dead(h, giver) && !gave_past(giver, pipe, walk.last_taken(pipe), h)
}

// Where a walk that stands before this statement comes to without an entry.
fn silent_at(
    alloc: Global,
    config: &Config,
    h: &[Entry],
    stage: u8,
    walk: &StageWalk,
    statement: &NumberedStatement,
) -> Result<Option<StageWalk>, AllocError>
    requires within { walk.now.cursor.position < length (script_of_stage config.now stage) }
    requires room { walk.now.cursor.position + 1 < 2 ^ 64 }
    ensures { IfOk result (λ next.
        next ≡ silent_by config.now h.now stage walk.now statement.now) }
{
    match statement {
        Statement::Let(variable, value) => {
            let value = walk.value_of(value);
            Ok(Some(walk.after_set(alloc, *variable, value)?))
        }
        Statement::Wait(child) => {
            if is_dead(h, child.number()) {
                Ok(Some(walk.after_wait(alloc, 2)?))
            } else {
                Ok(None)
            }
        }
        Statement::Take(variable, pipe) => {
            if is_dry(config, h, walk, *pipe) {
                Ok(Some(walk.after_take(alloc, *variable, 0, 2)?))
            } else {
                Ok(None)
            }
        }
        Statement::Fence => Ok(Some(walk.past_statement(alloc)?)),
        Statement::Repeat(turns) => Ok(Some(walk.in_block(alloc, *turns)?)),
        Statement::When(test) => {
            if walk.holds(test) {
                Ok(Some(walk.in_block(alloc, 1)?))
            } else {
                Ok(Some(walk.past_block(alloc, script_of(config, stage))?))
            }
        }
        Statement::End => Ok(Some(walk.after_end(alloc)?)),
        Statement::Read(_, _)
        | Statement::Write(_, _)
        | Statement::Snap(_)
        | Statement::Txn(_, _, _)
        | Statement::Spawn(_)
        | Statement::Put(_, _)
        | Statement::Close(_)
        | Statement::Exit => Ok(None),
    }
}

/// Where a walk comes to without an entry, if it does.
#[tactic(auto, using(crate::proofs::Next::silent_found, crate::proofs::Next::silent_none))]
pub fn silent_step(
    alloc: Global,
    config: &Config,
    h: &[Entry],
    stage: u8,
    walk: &StageWalk,
) -> Result<Option<StageWalk>, AllocError>
    ensures { IfOk result (λ next. next ≡ silent_from config.now h.now stage walk.now) }
{
    match next_statement(script_of(config, stage), walk) {
        Some(statement) => silent_at(alloc, config, h, stage, walk, statement),
        None => Ok(None),
    }
}
