//! What a giver's walk tells of a pipe, and where a walk comes to by taking it.

ghost use Rattle.std.specs.Prelude.{◌≡◌, ◌+◌, ◌<◌, ◌^◌, map, IfOk};
ghost use Rattle.rss_model.specs.Walk.{ready};
ghost use Rattle.script_laws.specs.Paths.{tells_at as told_at, tells_owing as told_owing, tells as is_told, took, take_step as take_leads};
ghost use Rattle.plain_walk.specs.Walks.{token_of};

use crate::script::{NumberedStatement, next_statement, script_of};
use crate::walk::{Mode, Owed, StageWalk};
use pipeline_lang::{Config, Statement};
use rss_model::Token;
use std::alloc::{AllocError, Global};

// What a statement tells of the pipe's number: the value that it puts, or the end mark.
fn tells_at(
    walk: &StageWalk,
    pipe: u8,
    number: u32,
    statement: &NumberedStatement,
) -> Option<Option<u64>>
    ensures { result ≡ told_at walk.now pipe number statement.now }
{
    match statement {
        Statement::Put(into, value) => {
            if *into == pipe && number as u64 == walk.next_given(*into as usize) {
                Some(Some(walk.value_of(value)))
            } else {
                None
            }
        }
        Statement::Close(into) => {
            if *into == pipe && number as u64 == walk.next_given(*into as usize) {
                Some(None)
            } else {
                None
            }
        }
        _ => None,
    }
}

// What a stage that is over tells: its end mark, if that is owed first.
fn tells_owing(pipe: u8, number: u32, owed: &[Owed]) -> Option<Option<u64>>
    ensures { result ≡ told_owing pipe number (map token_of owed.now) }
{
    match owed.first() {
        Some(first) => {
            if first.is_token(&Token::Chunk(pipe, number)) {
                Some(None)
            } else {
                None
            }
        }
        None => None,
    }
}

// What the next statement tells.
#[tactic(auto, using(crate::proofs::Next::found_next, crate::proofs::Next::tells_none))]
fn tells_next(
    config: &Config,
    stage: u8,
    walk: &StageWalk,
    pipe: u8,
    number: u32,
) -> Option<Option<u64>>
    requires { walk.now.mode ≡ ready }
    ensures { result ≡ is_told config.now stage walk.now pipe number }
{
    match next_statement(script_of(config, stage), walk) {
        Some(statement) => tells_at(walk, pipe, number, statement),
        None => None,
    }
}

/// What a giver's walk tells of a number of a pipe where it stands: a value, or the end mark.
pub fn tells(
    config: &Config,
    stage: u8,
    walk: &StageWalk,
    pipe: u8,
    number: u32,
) -> Option<Option<u64>>
    ensures { result ≡ is_told config.now stage walk.now pipe number }
{
    match &walk.mode {
        Mode::Ready => tells_next(config, stage, walk, pipe, number),
        Mode::Over(_, owed) => tells_owing(pipe, number, owed),
        Mode::Unborn | Mode::InCall(_) => None,
    }
}

// Behind a `take` of this number, which was told to be this value, or the end mark.
fn take_told(
    alloc: Global,
    walk: &StageWalk,
    variable: u8,
    pipe: u8,
    number: u32,
    value: Option<u64>,
) -> Result<Option<StageWalk>, AllocError>
    requires { walk.now.cursor.position + 1 < 2 ^ 64 }
    ensures { IfOk result (λ next. next ≡ took walk.now variable pipe number value) }
{
    match value {
        None => Ok(Some(walk.after_take(alloc, variable, 0, 1)?)),
        Some(value) => {
            if number as u64 == walk.last_taken(pipe) as u64 + 1 {
                Ok(Some(walk.after_chunk(alloc, variable, pipe, number, value)?))
            } else {
                Ok(None)
            }
        }
    }
}

/// Where a walk comes to by taking this number of a pipe.
#[tactic(auto, using(crate::proofs::Next::found_next, crate::proofs::Next::found_none))]
pub fn take_step(
    alloc: Global,
    config: &Config,
    stage: u8,
    walk: &StageWalk,
    pipe: u8,
    number: u32,
    value: Option<u64>,
) -> Result<Option<StageWalk>, AllocError>
    ensures { IfOk result (λ next.
        next ≡ take_leads config.now stage walk.now pipe number value) }
{
    match next_statement(script_of(config, stage), walk) {
        Some(Statement::Take(variable, from)) => {
            if *from == pipe {
                take_told(alloc, walk, *variable, pipe, number, value)
            } else {
                Ok(None)
            }
        }
        _ => Ok(None),
    }
}
