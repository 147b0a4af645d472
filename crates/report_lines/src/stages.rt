//! How stages stand, and the line of the ending.

ghost use Rattle.std.specs.Prelude.{◌≡◌, ◌++◌, OnOk};
ghost use Rattle.rss_machine.specs.ReportText.{how_text, stub_text, await_text, ending_line};
ghost use Rattle.report_lines.specs.Pieces.{waits_text, standing_text};

use crate::names::{put_pipe, put_stage};
use crate::text::{put, put_number};
use pipeline_lang::Config;
use rss_machine::{Ending, StageState};
use rss_model::How;
use rss_tables::{Await, StubEnd};
use std::alloc::{AllocError, Global};

// Appends how a stage died.
fn put_how(out: &mut Vec<u8>, how: How) -> Result<(), AllocError>
    ensures { OnOk result (out.new.items ≡ out.old.items ++ how_text how) }
{
    match how {
        How::Exited => put(out, b"exited"),
        How::Killed => put(out, b"killed"),
        How::Unavailable => put(out, b"unavailable"),
    }
}

// Appends how the stub of a stage that died has ended, if it has.
fn put_stub(out: &mut Vec<u8>, end: Option<StubEnd>) -> Result<(), AllocError>
    ensures { OnOk result (out.new.items ≡ out.old.items ++ stub_text end) }
{
    match end {
        None => put(out, b" fencing"),
        Some(StubEnd::Fenced) => put(out, b" fenced"),
        Some(StubEnd::Unfenced(_)) => put(out, b" unfenced"),
    }
}

// Appends what a blocked stage waits for.
fn put_await(
    alloc: Global,
    out: &mut Vec<u8>,
    config: &Config,
    awaited: Await,
) -> Result<(), AllocError>
    ensures { OnOk result (out.new.items ≡ out.old.items ++ await_text config.now awaited) }
{
    match awaited {
        Await::Take(pipe) => {
            put(out, b"waits take ")?;
            put_pipe(out, config, pipe)
        }
        Await::Put(pipe) => {
            put(out, b"waits put ")?;
            put_pipe(out, config, pipe)
        }
        Await::Stage(stage) => {
            put(out, b"waits stage ")?;
            put_stage(out, config, stage)
        }
        Await::Call(call) => {
            put(out, b"waits call ")?;
            put_number(alloc, out, u64::from(call.number()))
        }
    }
}

// Appends that a live stage runs, or what it waits for.
fn put_waits(
    alloc: Global,
    out: &mut Vec<u8>,
    config: &Config,
    blocked: Option<Await>,
) -> Result<(), AllocError>
    ensures { OnOk result (out.new.items ≡ out.old.items ++ waits_text config.now blocked) }
{
    match blocked {
        None => put(out, b"running"),
        Some(awaited) => put_await(alloc, out, config, awaited),
    }
}

/// Appends how a stage stands that waits for this, if it waits.
pub fn put_standing(
    alloc: Global,
    out: &mut Vec<u8>,
    config: &Config,
    blocked: Option<Await>,
    standing: StageState,
) -> Result<(), AllocError>
    ensures { OnOk result (out.new.items ≡
        out.old.items ++ standing_text config.now blocked standing) }
{
    match standing {
        StageState::Unborn => put(out, b"unborn"),
        StageState::Live => put_waits(alloc, out, config, blocked),
        StageState::Exited => put(out, b"exited"),
        StageState::Ended(how, end) => {
            put_how(out, how)?;
            put_stub(out, end)
        }
    }
}

/// Appends the line of the ending.
pub fn put_ending(out: &mut Vec<u8>, ending: Ending) -> Result<(), AllocError>
    ensures { OnOk result (out.new.items ≡ out.old.items ++ ending_line ending) }
{
    put(out, b"ending ")?;
    match ending {
        Ending::Done => put(out, b"done")?,
        Ending::Hurt => put(out, b"hurt")?,
        Ending::Limit => put(out, b"limit")?,
        Ending::Stuck => put(out, b"stuck")?,
        Ending::Unfinished => put(out, b"unfinished")?,
    }
    put(out, b"\n")
}
