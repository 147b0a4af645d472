//! Uses of stages and pipes that a script may not make.

ghost use Rattle.std.specs.Prelude.{◌≡◌, false};
ghost use Rattle.std.specs.Option.{option_map_or};
ghost use Rattle.script_binding.specs.Limits.{token_if};
ghost use Rattle.script_binding.specs.Naming.{naming, stage_of, pipe_of};
ghost use Rattle.script_binding.specs.Shapes.{has_number, is_later, is_bad_spawn, is_bad_wait, spawn_fault as spawn_fault_of, is_bad_give, is_bad_close, is_bad_take, pipe_fault as pipe_fault_of};

use crate::environment::Environment;
use crate::mention::RawStatement;
use crate::names::Names;
use pipeline_lang::Statement;
use rss_names::{Name, StageId};

// Whether a stage is among these.
fn has_stage(stage: StageId, stages: &[StageId]) -> bool
    ensures { result ≡ has_number stage stages.now }
{
    stages.iter().any(|other| stage == *other)
}

// Whether a pipe is among these.
fn has_pipe(pipe: u8, pipes: &[u8]) -> bool
    ensures { result ≡ has_number pipe pipes.now }
{
    pipes.iter().any(|other| pipe == *other)
}

// Whether a stage stands later in the file than the script's own.
fn is_later(names: &Names, stage: StageId) -> bool
    ensures { result ≡ is_later (naming names.now) stage }
{
    stage.number() > names.stage.number()
}

// Whether a stage may not be spawned here.
fn is_bad_spawn(names: &Names, environment: &Environment, stage: StageId) -> bool
    ensures { result ≡ is_bad_spawn (naming names.now) environment.now stage }
{
    environment.depth > 0
        || !is_later(names, stage)
        || has_stage(stage, names.spawned.as_slice())
        || has_stage(stage, environment.spawned.as_slice())
}

// Whether a stage may not be waited for here.
fn is_bad_wait(names: &Names, environment: &Environment, stage: StageId) -> bool
    ensures { result ≡ is_bad_wait (naming names.now) environment.now stage }
{
    environment.depth > 0
        || !is_later(names, stage)
        || !has_stage(stage, environment.spawned.as_slice())
        || has_stage(stage, environment.waited.as_slice())
}

// The token, where the test holds.
fn token_if(test: bool, token: u64) -> Option<u64>
    ensures { result ≡ token_if test token }
{
    if test { Some(token) } else { None }
}

// Whether the stage of a name may not be spawned here.
fn is_bad_spawn_of(names: &Names, environment: &Environment, name: &Name) -> bool
    ensures { result ≡
        option_map_or (is_bad_spawn (naming names.now) environment.now) (stage_of (naming names.now) name.now) false }
{
    match names.stage_named(name) {
        Some(stage) => is_bad_spawn(names, environment, stage),
        None => false,
    }
}

// Whether the stage of a name may not be waited for here.
fn is_bad_wait_of(names: &Names, environment: &Environment, name: &Name) -> bool
    ensures { result ≡
        option_map_or (is_bad_wait (naming names.now) environment.now) (stage_of (naming names.now) name.now) false }
{
    match names.stage_named(name) {
        Some(stage) => is_bad_wait(names, environment, stage),
        None => false,
    }
}

/// The token of a stage that may not be spawned or waited for here.
pub fn spawn_fault(
    names: &Names,
    environment: &Environment,
    statement: &RawStatement,
) -> Option<u64>
    ensures { result ≡ spawn_fault_of (naming names.now) environment.now statement.now }
{
    match statement {
        Statement::Spawn(name) => token_if(is_bad_spawn_of(names, environment, name), 1),
        Statement::Wait(name) => token_if(is_bad_wait_of(names, environment, name), 1),
        _ => None,
    }
}

// Whether nothing may be put to a pipe here.
fn is_bad_give(names: &Names, environment: &Environment, pipe: u8) -> bool
    ensures { result ≡ is_bad_give (naming names.now) environment.now pipe }
{
    !names.gives_to(pipe) || has_pipe(pipe, environment.closed.as_slice())
}

// Whether nothing may be put to the pipe of a name here.
fn is_bad_give_of(names: &Names, environment: &Environment, name: &Name) -> bool
    ensures { result ≡
        option_map_or (is_bad_give (naming names.now) environment.now) (pipe_of (naming names.now) name.now) false }
{
    match names.pipe_named(name) {
        Some(pipe) => is_bad_give(names, environment, pipe),
        None => false,
    }
}

// Whether the pipe of a name may not be closed here.
fn is_bad_close_of(names: &Names, environment: &Environment, name: &Name) -> bool
    ensures { result ≡
        option_map_or (is_bad_close (naming names.now) environment.now) (pipe_of (naming names.now) name.now) false }
{
    match names.pipe_named(name) {
        Some(pipe) => environment.depth > 0 || is_bad_give(names, environment, pipe),
        None => false,
    }
}

// Whether nothing may be taken from the pipe of a name.
fn is_bad_take_of(names: &Names, name: &Name) -> bool
    ensures { result ≡
        option_map_or (is_bad_take (naming names.now)) (pipe_of (naming names.now) name.now) false }
{
    match names.pipe_named(name) {
        Some(pipe) => !names.takes_from(pipe),
        None => false,
    }
}

/// The token of a pipe that may not be used or closed so here.
pub fn pipe_fault(names: &Names, environment: &Environment, statement: &RawStatement) -> Option<u64>
    ensures { result ≡ pipe_fault_of (naming names.now) environment.now statement.now }
{
    match statement {
        Statement::Put(name, _) => token_if(is_bad_give_of(names, environment, name), 1),
        Statement::Take(_, name) => token_if(is_bad_take_of(names, name), 2),
        Statement::Close(name) => token_if(is_bad_close_of(names, environment, name), 1),
        _ => None,
    }
}
