//! Answers: the text and the status for an input, all made before the first byte is written.

ghost use Rattle.std.specs.Prelude.{◌≡◌, ◌≤◌, true, IfOk, length, All};
ghost use Rattle.rss_machine.specs.Endings.{ending_of};
ghost use Rattle.rss_machine.specs.Run.{steps_of};
ghost use Rattle.rss_cli.specs.Answer.{IsRead, IsReplayed, IsPlayed, IsStepsAnswer, IsFileAnswer, IsReadBy, IsReadForPolicy, IsWholeReport, Tells, steps_limit, input_limit, is_answer};
ghost use Rattle.rss_cli.specs.FaultText.{fault_text};
ghost use Rattle.rss_cli.specs.Reported.{IsReport};
ghost use Rattle.rss_cli.specs.Statuses.{status_of};
ghost use Rattle.step_text.specs.Spelling.{IsStep};
ghost use Rattle.world_laws.specs.Shapes.{IsSoundFile};

use crate::asked::Asked;
use crate::disk::disk_answer;
use crate::fault::Fault;
use crate::fault_lines::fault_line;
use crate::play::{PlayError, play};
use crate::status::Status;
use crate::telling::told;
use command_words::{Command, Form};
use event_world::World;
use input_parts::split;
use pipeline_file::{FileError, read};
use pipeline_lang::Config;
use rss_machine::Step;
use serial_run::serial;
use std::alloc::{AllocError, Global};
use step_text::{StepTextError, read_steps};

/// The longest step text, in bytes.
const LONGEST_STEPS: usize = 16_777_216;

/// The text to write, and the status to end with once it is written.
#[derive(Drop)]
pub struct Answer {
    pub status: Status,
    pub text: Vec<u8>,
}

/// The answer of a command to an input that is not too long.
pub fn answer_of(alloc: Global, command: Command, input: &[u8]) -> Result<Answer, AllocError>
    requires short { length input.now ≤ input_limit }
    ensures answer { IfOk result (λ a. IsReadBy command input.now a.text.items a.status) }
    ensures status { IfOk result (λ a. is_answer a.status ≡ true) }
{
    match command {
        Command::Replay(form) => replay_answer(alloc, Asked::Report(form), input),
        Command::Serial(form) => serial_answer(alloc, form, input),
        Command::Disk(replica, stop) => replay_answer(alloc, Asked::Disk(replica, stop), input),
    }
}

// The answer to a file and the step text behind it, in one input.
fn replay_answer(alloc: Global, asked: Asked, input: &[u8]) -> Result<Answer, AllocError>
    requires short { length input.now ≤ input_limit }
    ensures answer { IfOk result (λ a. IsRead asked input.now a.text.items a.status) }
    ensures status { IfOk result (λ a. is_answer a.status ≡ true) }
{
    let (file, behind) = split(input);
    replayed(alloc, asked, file, behind)
}

// The answer to a file, by the steps of the serial policy.
fn serial_answer(alloc: Global, form: Form, input: &[u8]) -> Result<Answer, AllocError>
    requires short { length input.now ≤ input_limit }
    ensures answer { IfOk result (λ a. IsReadForPolicy form input.now a.text.items a.status) }
    ensures status { IfOk result (λ a. is_answer a.status ≡ true) }
{
    match read(alloc, input) {
        Ok(config) => policy_answer(alloc, form, config),
        Err(FileError::Fault(first)) => fault_answer(alloc, Fault::File(first), Status::File),
        Err(FileError::OutOfMemory) => Err(AllocError),
    }
}

// The report of a configuration after the steps of the serial policy.
fn policy_answer(alloc: Global, form: Form, config: Config) -> Result<Answer, AllocError>
    requires sound { IsSoundFile config }
    ensures answer { IfOk result (λ a. IsWholeReport form config a.text.items a.status) }
    ensures status { IfOk result (λ a. is_answer a.status ≡ true) }
{
    let world = serial(alloc, config)?;
    report_answer(alloc, form, &world)
}

// The answer to a file and the step text behind it.
fn replayed(alloc: Global, asked: Asked, file: &[u8], behind: &[u8]) -> Result<Answer, AllocError>
    ensures answer { IfOk result (λ a. IsReplayed asked file.now behind.now a.text.items a.status) }
    ensures status { IfOk result (λ a. is_answer a.status ≡ true) }
{
    if behind.len() > LONGEST_STEPS {
        fault_answer(alloc, Fault::TooLong, Status::File)
    } else {
        file_answer(alloc, asked, file, behind)
    }
}

// The answer to a file and a step text that is not too long.
fn file_answer(
    alloc: Global,
    asked: Asked,
    file: &[u8],
    behind: &[u8],
) -> Result<Answer, AllocError>
    requires short { length behind.now ≤ steps_limit }
    ensures answer { IfOk result (λ a. IsFileAnswer asked file.now behind.now a.text.items a.status) }
    ensures status { IfOk result (λ a. is_answer a.status ≡ true) }
{
    match read(alloc, file) {
        Ok(config) => steps_answer(alloc, asked, config, behind),
        Err(FileError::Fault(first)) => fault_answer(alloc, Fault::File(first), Status::File),
        Err(FileError::OutOfMemory) => Err(AllocError),
    }
}

// The answer to the step text of a configuration.
fn steps_answer(
    alloc: Global,
    asked: Asked,
    config: Config,
    behind: &[u8],
) -> Result<Answer, AllocError>
    requires sound { IsSoundFile config }
    requires short { length behind.now ≤ steps_limit }
    ensures answer { IfOk result (λ a. IsStepsAnswer asked config behind.now a.text.items a.status) }
    ensures status { IfOk result (λ a. is_answer a.status ≡ true) }
{
    match read_steps(alloc, behind) {
        Ok(steps) => played(alloc, asked, config, steps.as_slice()),
        Err(StepTextError::BadStep { number, column }) => {
            let fault = Fault::OffGrammar {
                number: u64::from(number),
                column: u64::from(column),
            };
            fault_answer(alloc, fault, Status::BadStep)
        }
        Err(StepTextError::OutOfMemory) => Err(AllocError),
    }
}

// The answer to a list of steps of a configuration.
#[tactic(auto, using(crate::proofs::Answered::world_sound))]
fn played(alloc: Global, asked: Asked, config: Config, steps: &[Step]) -> Result<Answer, AllocError>
    requires sound { IsSoundFile config }
    requires grammar { All IsStep steps.now }
    ensures answer { IfOk result (λ a. IsPlayed asked config steps.now a.text.items a.status) }
    ensures status { IfOk result (λ a. is_answer a.status ≡ true) }
{
    match play(alloc, config, steps) {
        Ok(world) => asked_answer(alloc, asked, &world),
        Err(PlayError::Refused { number, cause }) => {
            fault_answer(alloc, Fault::Refused { number, cause }, Status::BadStep)
        }
        Err(PlayError::OutOfMemory) => Err(AllocError),
    }
}

// The answer that tells what is asked of a World.
fn asked_answer(alloc: Global, asked: Asked, world: &World) -> Result<Answer, AllocError>
    requires sound { IsSoundFile world.now.config }
    ensures told { IfOk result (λ a.
        Tells asked world.now.config world.now.state (steps_of world.now.log) a.text.items a.status) }
    ensures status { IfOk result (λ a. is_answer a.status ≡ true) }
{
    match asked {
        Asked::Report(form) => Ok(report_answer(alloc, form, world)?),
        Asked::Disk(replica, stop) => disk_answer(alloc, replica, stop, world),
    }
}

// The answer that tells of a World, in a form.
fn report_answer(alloc: Global, form: Form, world: &World) -> Result<Answer, AllocError>
    ensures report { IfOk result (λ a. IsReport form world.now.config world.now.state (steps_of world.now.log) a.text.items) }
    ensures ending { IfOk result (λ a. a.status ≡ status_of (ending_of world.now.config world.now.state)) }
    ensures status { IfOk result (λ a. is_answer a.status ≡ true) }
{
    let status = Status::of(world.ending());
    let text = told(alloc, form, world)?;
    Ok(Answer { status, text })
}

/// The answer that tells a fault.
pub fn fault_answer(alloc: Global, fault: Fault, status: Status) -> Result<Answer, AllocError>
    ensures text { IfOk result (λ a. a.text.items ≡ fault_text fault) }
    ensures status { IfOk result (λ a. a.status ≡ status) }
{
    let text = fault_line(alloc, fault)?;
    Ok(Answer { status, text })
}
