//! The step text of a log.

ghost use Rattle.std.specs.Prelude.{◌≡◌, ◌++◌, codes, IfOk, OnOk};
ghost use Rattle.std.specs.Fmt.{decimal};
ghost use Rattle.rss_machine.specs.Run.{steps_of};
ghost use Rattle.step_text.specs.Spelling.{kind_text, clock_text, line_of, text_of};

use rss_machine::{Logged, Step, StepKind};
use rss_names::put_number;
use std::alloc::{AllocError, Global};
use truetime::Interval;

/// Adds a word and a number.
fn put_numbered(
    alloc: Global,
    text: &mut Vec<u8>,
    word: &[u8],
    number: u64,
) -> Result<(), AllocError>
    ensures { OnOk result (text.new.items ≡ text.old.items ++ (word.now ++ decimal number)) }
{
    text.extend_from_slice(word)?;
    put_number(alloc, text, number)
}

/// Adds what a step does.
#[tactic(auto, unfolding(crate::specs::Spelling::kind_text))]
fn put_kind(alloc: Global, text: &mut Vec<u8>, kind: StepKind) -> Result<(), AllocError>
    ensures { OnOk result (text.new.items ≡ text.old.items ++ kind_text kind) }
{
    match kind {
        StepKind::Act(stage) => put_numbered(alloc, text, b"act ", stage.number() as u64),
        StepKind::Go(message) => put_numbered(alloc, text, b"go ", message as u64),
        StepKind::Lose(message) => put_numbered(alloc, text, b"lose ", message as u64),
        StepKind::Again(message) => put_numbered(alloc, text, b"again ", message as u64),
        StepKind::Kill(stage) => put_numbered(alloc, text, b"kill ", stage.number() as u64),
        StepKind::Stub(stage) => put_numbered(alloc, text, b"stub ", stage.number() as u64),
    }
}

/// Adds the reading of a step and the newline.
#[tactic(auto, unfolding(crate::specs::Spelling::clock_text))]
fn put_clock(alloc: Global, text: &mut Vec<u8>, at: Interval) -> Result<(), AllocError>
    ensures { OnOk result (text.new.items ≡ text.old.items ++ clock_text at) }
{
    put_numbered(alloc, text, b" ", at.earliest())?;
    put_numbered(alloc, text, b" ", at.latest())?;
    text.extend_from_slice(b"\n")
}

/// Adds the line of a step.
#[tactic(auto, unfolding(crate::specs::Spelling::line_of))]
fn put_step(alloc: Global, text: &mut Vec<u8>, step: Step) -> Result<(), AllocError>
    ensures { OnOk result (text.new.items ≡ text.old.items ++ line_of step) }
{
    put_kind(alloc, text, step.kind)?;
    put_clock(alloc, text, step.at)
}

/// The step text of a log: the lines of its steps, one behind another, without their drivers.
/// `read_steps` reads it back as these steps where the numbers of their messages are positive.
pub fn print_steps(alloc: Global, log: &[Logged]) -> Result<Vec<u8>, AllocError>
    ensures { IfOk result (λ text. text.items ≡ text_of (steps_of log.now)) }
{
    let mut text = Vec::new(alloc);
    for logged in log {
        put_step(alloc, &mut text, logged.step)?;
    }
    Ok(text)
}
