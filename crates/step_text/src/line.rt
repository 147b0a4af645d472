//! The line of a step.

ghost use Rattle.std.specs.Prelude.{◌≡◌, ◌≤◌, ◌<◌, ◌+◌, ◌^◌, length, IfOk};
ghost use Rattle.step_text.specs.Reading.{Gives, Near};
ghost use Rattle.step_text.specs.Lines.{kind_at, clock_at, step_at};

use crate::kind::kind_of;
use crate::number::{number_of, skip_word};
use rss_machine::Step;
use truetime::Interval;

/// The greatest end of a reading.
const MOMENTS: u64 = (1 << 62) - 1;

/// The reading of the clock and the newline at the front, and what stands behind them.
#[tactic(auto, unfolding(crate::specs::Lines::clock_at))]
fn clock_of(bytes: &[u8]) -> Result<(Interval, &[u8]), usize>
    ensures gives { Gives (λ r. (r.0, r.1.now)) result (clock_at bytes.now) }
    ensures near { Near (λ r. length r.1.now) 1 127 (length bytes.now) result }
{
    let rest = skip_word(b" ", bytes)?;
    let (earliest, rest) = number_of(0, MOMENTS, rest)?;
    let second = skip_word(b" ", rest)?;
    let (latest, rest) = number_of(0, MOMENTS, second)?;
    let rest = skip_word(b"\n", rest)?;
    match Interval::new(earliest, latest) {
        Some(at) => Ok((at, rest)),
        None => Err(second.len()),
    }
}

/// The step whose line stands at the front, and what stands behind it; or how much is left at the
/// place where the line goes off the grammar, which lies at most 195 bytes behind the front.
#[tactic(auto, unfolding(crate::specs::Lines::step_at))]
pub fn step_of(bytes: &[u8]) -> Result<(Step, &[u8]), usize>
    ensures gives { Gives (λ r. (r.0, r.1.now)) result (step_at bytes.now) }
    ensures near { Near (λ r. length r.1.now) 1 195 (length bytes.now) result }
{
    match kind_of(bytes) {
        Ok((kind, rest)) => match clock_of(rest) {
            Ok((at, rest)) => Ok((Step { kind, at }, rest)),
            Err(left) => Err(left),
        },
        Err(left) => Err(left),
    }
}
