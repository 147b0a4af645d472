//! Where an entry leads a walk, but for the chunks and end marks that it takes.

ghost use Rattle.std.specs.Prelude.{◌≡◌, ◌+◌, ◌<◌, ◌^◌, IfOk, IfSome, Some, ◌≢◌};
ghost use Rattle.std.specs.Option.{is_some};
ghost use Rattle.rss_model.specs.declared.history.How.{How};
ghost use Rattle.rss_model.specs.Walk.{next_given as next_number, is_alive as is_living};
ghost use Rattle.rss_model.specs.declared.history.Token.TheVariants as tokens;
ghost use Rattle.rss_model.specs.Tokens.{same_token};
ghost use Rattle.script_laws.specs.Entries.{next_statement as next_of, begun, ended, gave_at, given_in, born, waited, got, exited, ended_as, entry_step as entry_leads};

use crate::history::{gave, wait_status};
use crate::script::{NumberedStatement, next_statement, script_of};
use crate::walk::{Mode, StageWalk};
use pipeline_lang::{Config, Statement};
use rss_model::{Entry, How, Op, Shown, Token, is_same_token};
use rss_names::CallId;
use std::alloc::{AllocError, Global};

// Into a call, if this statement makes this operation.
fn begin_at(
    alloc: Global,
    walk: &StageWalk,
    statement: &NumberedStatement,
    call: CallId,
    op: &Op,
) -> Result<Option<StageWalk>, AllocError>
    ensures { IfOk result (λ next. next ≡ begun walk.now (Some statement.now) call op.now) }
{
    if walk.makes(statement, op) {
        Ok(Some(walk.in_mode(alloc, Mode::InCall(call))?))
    } else {
        Ok(None)
    }
}

// Into a call, if the next statement makes this operation.
#[tactic(auto, using(crate::proofs::Next::found_next, crate::proofs::Next::found_none))]
fn begin(
    alloc: Global,
    config: &Config,
    stage: u8,
    walk: &StageWalk,
    call: CallId,
    op: &Op,
) -> Result<Option<StageWalk>, AllocError>
    ensures { IfOk result (λ next.
        next ≡ begun walk.now (next_of config.now stage walk.now) call op.now) }
{
    match next_statement(script_of(config, stage), walk) {
        Some(statement) => begin_at(alloc, walk, statement, call, op),
        None => Ok(None),
    }
}

// Behind the call that the walk is in.
fn end(
    alloc: Global,
    config: &Config,
    stage: u8,
    walk: &StageWalk,
    call: CallId,
    shown: &[Shown],
) -> Result<Option<StageWalk>, AllocError>
    ensures { IfOk result (λ next.
        next ≡ ended config.now stage walk.now walk.now.mode call shown.now) }
{
    match walk.mode {
        Mode::InCall(begun) => {
            if begun == call {
                Ok(Some(walk.after_reply(alloc, script_of(config, stage), shown)?))
            } else {
                Ok(None)
            }
        }
        Mode::Unborn | Mode::Ready | Mode::Over(_, _) => Ok(None),
    }
}

// The number of a token, if it is the next one that the stage gives to this pipe.
fn next_chunk(walk: &StageWalk, pipe: u8, token: &Token) -> Option<u32>
    ensures given { is_some result ≡
        same_token (tokens.Chunk pipe (next_number walk.now pipe)) token.now }
    ensures number { IfSome result (λ number. number ≡ next_number walk.now pipe) }
{
    match token {
        Token::Chunk(into, number) => {
            if pipe == *into && walk.next_given(pipe as usize) == *number as u64 {
                Some(*number)
            } else {
                None
            }
        }
        Token::Spawn(_) | Token::Exit(_) => None,
    }
}

// Behind a statement that gives this token.
fn give_at(
    alloc: Global,
    walk: &StageWalk,
    statement: &NumberedStatement,
    token: &Token,
) -> Result<Option<StageWalk>, AllocError>
    requires { walk.now.cursor.position + 1 < 2 ^ 64 }
    ensures { IfOk result (λ next. next ≡ gave_at walk.now (Some statement.now) token.now) }
{
    match statement {
        Statement::Spawn(child) => {
            if is_same_token(&Token::Spawn(*child), token) {
                Ok(Some(walk.past_statement(alloc)?))
            } else {
                Ok(None)
            }
        }
        Statement::Put(pipe, _) => match next_chunk(walk, *pipe, token) {
            Some(number) => Ok(Some(walk.after_put(alloc, *pipe, number)?)),
            None => Ok(None),
        },
        Statement::Close(pipe) => match next_chunk(walk, *pipe, token) {
            Some(number) => Ok(Some(walk.after_close(alloc, *pipe, number)?)),
            None => Ok(None),
        },
        _ => Ok(None),
    }
}

// Behind the statement that gives this token, if one comes next.
#[tactic(auto, using(crate::proofs::Next::found_next, crate::proofs::Next::found_none))]
fn give_next(
    alloc: Global,
    config: &Config,
    stage: u8,
    walk: &StageWalk,
    token: &Token,
) -> Result<Option<StageWalk>, AllocError>
    ensures { IfOk result (λ next.
        next ≡ gave_at walk.now (next_of config.now stage walk.now) token.now) }
{
    match next_statement(script_of(config, stage), walk) {
        Some(statement) => give_at(alloc, walk, statement, token),
        None => Ok(None),
    }
}

// Behind a token given.
fn give(
    alloc: Global,
    config: &Config,
    stage: u8,
    walk: &StageWalk,
    token: &Token,
) -> Result<Option<StageWalk>, AllocError>
    ensures { IfOk result (λ next.
        next ≡ given_in config.now stage walk.now walk.now.mode token.now) }
{
    match &walk.mode {
        Mode::Ready => give_next(alloc, config, stage, walk, token),
        Mode::Over(how, owed) => walk.pay(alloc, *how, owed, token),
        Mode::Unborn | Mode::InCall(_) => Ok(None),
    }
}

// Behind the spawn of the stage.
fn bear(alloc: Global, walk: &StageWalk) -> Result<Option<StageWalk>, AllocError>
    ensures { IfOk result (λ next. next ≡ born walk.now walk.now.mode) }
{
    match walk.mode {
        Mode::Unborn => { Ok(Some(walk.in_mode(alloc, Mode::Ready)?)) }
        Mode::Ready | Mode::InCall(_) | Mode::Over(_, _) => Ok(None),
    }
}

// Behind a `wait` for this stage.
#[tactic(auto, using(crate::proofs::Next::found_next, crate::proofs::Next::found_none))]
fn wait(
    alloc: Global,
    config: &Config,
    h: &[Entry],
    stage: u8,
    walk: &StageWalk,
    child: u8,
) -> Result<Option<StageWalk>, AllocError>
    ensures { IfOk result (λ next.
        next ≡ waited h.now walk.now (next_of config.now stage walk.now) child) }
{
    match next_statement(script_of(config, stage), walk) {
        Some(Statement::Wait(awaited)) => {
            if awaited.number() == child {
                Ok(Some(walk.after_wait(alloc, wait_status(h, child))?))
            } else {
                Ok(None)
            }
        }
        _ => Ok(None),
    }
}

// Behind a spawn or an exit that was got.
fn get(
    alloc: Global,
    config: &Config,
    h: &[Entry],
    stage: u8,
    walk: &StageWalk,
    token: &Token,
) -> Result<Option<StageWalk>, AllocError>
    ensures { IfOk result (λ next. next ≡ got config.now h.now stage walk.now token.now) }
{
    match token {
        Token::Spawn(spawned) => {
            if spawned.number() == stage {
                bear(alloc, walk)
            } else {
                Ok(None)
            }
        }
        Token::Chunk(_, _) => Ok(None),
        Token::Exit(child) => wait(alloc, config, h, stage, walk, child.number()),
    }
}

// Over by its own exit.
fn exit(
    alloc: Global,
    config: &Config,
    stage: u8,
    walk: &StageWalk,
) -> Result<Option<StageWalk>, AllocError>
    ensures { IfOk result (λ next.
        next ≡ exited config.now stage walk.now (next_of config.now stage walk.now)) }
{
    match walk.mode {
        Mode::Ready => match script_of(config, stage).get(walk.position) {
            Some(Statement::Exit) | None => {
                Ok(Some(walk.over_as(alloc, config, stage, How::Exited)?))
            }
            Some(_) => Ok(None),
        },
        Mode::Unborn | Mode::InCall(_) | Mode::Over(_, _) => Ok(None),
    }
}

// Whether a stage has begun and is not over.
fn is_alive(walk: &StageWalk) -> bool
    ensures { result ≡ is_living walk.now.mode }
{
    match walk.mode {
        Mode::Ready | Mode::InCall(_) => true,
        Mode::Unborn | Mode::Over(_, _) => false,
    }
}

// Over by death.
fn die(
    alloc: Global,
    config: &Config,
    stage: u8,
    walk: &StageWalk,
    how: How,
) -> Result<Option<StageWalk>, AllocError>
    requires { how ≢ How.Exited }
    ensures { IfOk result (λ next. next ≡ ended_as config.now stage walk.now how) }
{
    if is_alive(walk) {
        Ok(Some(walk.over_as(alloc, config, stage, how)?))
    } else {
        Ok(None)
    }
}

// Over, by its own exit or by death.
fn end_as(
    alloc: Global,
    config: &Config,
    stage: u8,
    walk: &StageWalk,
    how: How,
) -> Result<Option<StageWalk>, AllocError>
    ensures { IfOk result (λ next. next ≡ ended_as config.now stage walk.now how) }
{
    match how {
        How::Exited => exit(alloc, config, stage, walk),
        How::Killed | How::Unavailable => die(alloc, config, stage, walk, how),
    }
}

/// Where an entry below these leads the walk, but for the chunks and end marks that it takes.
pub fn entry_step(
    alloc: Global,
    config: &Config,
    h: &[Entry],
    stage: u8,
    above: &[Entry],
    entry: &Entry,
    walk: &StageWalk,
) -> Result<Option<StageWalk>, AllocError>
    ensures { IfOk result (λ next.
        next ≡ entry_leads config.now h.now stage above.now entry.now walk.now) }
{
    match entry {
        Entry::Begin(call, own, op) => {
            if own.number() == stage {
                begin(alloc, config, stage, walk, *call, op)
            } else {
                Ok(None)
            }
        }
        Entry::End(call, reply) => end(alloc, config, stage, walk, *call, reply.as_slice()),
        Entry::Give(own, token) => {
            if own.number() == stage {
                give(alloc, config, stage, walk, token)
            } else {
                Ok(None)
            }
        }
        Entry::Get(own, token) => {
            if own.number() == stage && gave(token, above) {
                get(alloc, config, h, stage, walk, token)
            } else {
                Ok(None)
            }
        }
        Entry::Over(own, how) => {
            if own.number() == stage {
                end_as(alloc, config, stage, walk, *how)
            } else {
                Ok(None)
            }
        }
    }
}
