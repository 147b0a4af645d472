//! The whole step text.

ghost use Rattle.std.specs.Prelude.{◌≡◌, ◌<◌, ◌^◌, length, IfOk, IfErr, MatchResult, All, List, []};
ghost use Rattle.truetime.specs.Reading.{IsReading};
ghost use Rattle.rss_machine.specs.declared.step.Step.{Step};
ghost use Rattle.step_text.specs.Spelling.{text_of, IsStep};
ghost use Rattle.step_text.specs.Texts.{Reads, IsRefusal};

use crate::error::StepTextError;
use crate::line::step_of;
use rss_machine::Step;
use std::alloc::Global;

/// The steps of a text. Each line is `act S E L`, `go M E L`, `lose M E L`, `again M E L`,
/// `kill S E L` or `stub S E L` and a newline, with single spaces: S is a stage, from 1 to 16, M a
/// message, from 1 on, and E and L are the earliest and the latest of the reading, with E at most L
/// and L below 2^62. Numbers are decimal without leading zeros. `BadStep` names the first line that
/// is off this grammar; of the lines behind it nothing is read. The text is shorter than 2^32 bytes.
pub fn read_steps(alloc: Global, bytes: &[u8]) -> Result<Vec<Step>, StepTextError>
    requires { length bytes.now < 2 ^ 32 }
    ensures read { IfOk result (λ steps. Reads bytes.now steps.items []) }
    ensures spelled { IfOk result (λ steps. bytes.now ≡ text_of steps.items) }
    ensures only { (steps : List Step) → All IsStep steps → bytes.now ≡ text_of steps
        → MatchResult result (λ read. read.items ≡ steps) (λ e. e ≡ StepTextError.OutOfMemory) }
    ensures steps { IfOk result (λ steps. All IsStep steps.items) }
    ensures readings { IfOk result (λ steps. All (λ step. IsReading step.at) steps.items) }
    ensures refused { IfErr result (λ e. IsRefusal bytes.now e) }
{
    let mut steps = Vec::new(alloc);
    let mut rest = bytes;
    while !rest.is_empty() {
        match step_of(rest) {
            Ok((step, behind)) => {
                match steps.push(step) {
                    Ok(()) => {}
                    Err(_) => return Err(StepTextError::OutOfMemory),
                }
                rest = behind;
            }
            Err(left) => {
                return Err(StepTextError::BadStep {
                    number: steps.len() as u32 + 1,
                    column: (rest.len() - left) as u32 + 1,
                });
            }
        }
    }
    Ok(steps)
}
