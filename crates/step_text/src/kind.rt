//! What a step does: one of six kinds, with the number of a stage or a message.

ghost use Rattle.std.specs.Prelude.{◌≡◌, ◌≤◌, ◌<◌, ◌+◌, ◌^◌, length, IfOk};
ghost use Rattle.step_text.specs.Reading.{Gives, Near, furthest};
ghost use Rattle.step_text.specs.Lines.{stage_at, message_at, act_at, go_at, lose_at, again_at, kill_at, stub_at, kind_at};

use crate::number::{number_of, skip_word};
use rss_machine::StepKind;
use rss_names::{MOST_STAGES, StageId};

/// The greatest number of a stage.
const STAGES: u64 = MOST_STAGES as u64;

/// The greatest number of a message.
const MESSAGES: u64 = (1 << 32) - 1;

/// The stage of a number in range.
fn stage(number: u64) -> StageId
    requires low { 1 ≤ number }
    requires high { number ≤ 16 }
    ensures { result ≡ number }
{
    StageId::new(number as u8).unwrap()
}

/// This word and the number of a stage at the front, and what stands behind them.
#[tactic(auto, unfolding(crate::specs::Lines::stage_at))]
fn stage_of<'a>(word: &[u8], bytes: &'a [u8]) -> Result<(u64, &'a [u8]), usize>
    ensures gives { Gives (λ r. (r.0, r.1.now)) result (stage_at word.now bytes.now) }
    ensures near { Near (λ r. length r.1.now) 1 (length word.now + 62) (length bytes.now) result }
    ensures range { IfOk result (λ r. (1 ≤ r.0) × (r.0 ≤ 16)) }
{
    let rest = skip_word(word, bytes)?;
    number_of(1, STAGES, rest)
}

/// This word and the number of a message at the front, and what stands behind them.
#[tactic(auto, unfolding(crate::specs::Lines::message_at))]
fn message_of<'a>(word: &[u8], bytes: &'a [u8]) -> Result<(u32, &'a [u8]), usize>
    ensures gives { Gives (λ r. (r.0, r.1.now)) result (message_at word.now bytes.now) }
    ensures near { Near (λ r. length r.1.now) 1 (length word.now + 62) (length bytes.now) result }
{
    let rest = skip_word(word, bytes)?;
    let (number, rest) = number_of(1, MESSAGES, rest)?;
    Ok((number as u32, rest))
}

/// `act S` at the front, and what stands behind it.
#[tactic(auto, unfolding(crate::specs::Lines::act_at))]
fn act_of(bytes: &[u8]) -> Result<(StepKind, &[u8]), usize>
    ensures gives { Gives (λ r. (r.0, r.1.now)) result (act_at bytes.now) }
    ensures near { Near (λ r. length r.1.now) 1 66 (length bytes.now) result }
{
    let (number, rest) = stage_of(b"act ", bytes)?;
    Ok((StepKind::Act(stage(number)), rest))
}

/// `go M` at the front, and what stands behind it.
#[tactic(auto, unfolding(crate::specs::Lines::go_at))]
fn go_of(bytes: &[u8]) -> Result<(StepKind, &[u8]), usize>
    ensures gives { Gives (λ r. (r.0, r.1.now)) result (go_at bytes.now) }
    ensures near { Near (λ r. length r.1.now) 1 65 (length bytes.now) result }
{
    let (message, rest) = message_of(b"go ", bytes)?;
    Ok((StepKind::Go(message), rest))
}

/// `lose M` at the front, and what stands behind it.
#[tactic(auto, unfolding(crate::specs::Lines::lose_at))]
fn lose_of(bytes: &[u8]) -> Result<(StepKind, &[u8]), usize>
    ensures gives { Gives (λ r. (r.0, r.1.now)) result (lose_at bytes.now) }
    ensures near { Near (λ r. length r.1.now) 1 67 (length bytes.now) result }
{
    let (message, rest) = message_of(b"lose ", bytes)?;
    Ok((StepKind::Lose(message), rest))
}

/// `again M` at the front, and what stands behind it.
#[tactic(auto, unfolding(crate::specs::Lines::again_at))]
fn again_of(bytes: &[u8]) -> Result<(StepKind, &[u8]), usize>
    ensures gives { Gives (λ r. (r.0, r.1.now)) result (again_at bytes.now) }
    ensures near { Near (λ r. length r.1.now) 1 68 (length bytes.now) result }
{
    let (message, rest) = message_of(b"again ", bytes)?;
    Ok((StepKind::Again(message), rest))
}

/// `kill S` at the front, and what stands behind it.
#[tactic(auto, unfolding(crate::specs::Lines::kill_at))]
fn kill_of(bytes: &[u8]) -> Result<(StepKind, &[u8]), usize>
    ensures gives { Gives (λ r. (r.0, r.1.now)) result (kill_at bytes.now) }
    ensures near { Near (λ r. length r.1.now) 1 67 (length bytes.now) result }
{
    let (number, rest) = stage_of(b"kill ", bytes)?;
    Ok((StepKind::Kill(stage(number)), rest))
}

/// `stub S` at the front, and what stands behind it.
#[tactic(auto, unfolding(crate::specs::Lines::stub_at))]
fn stub_of(bytes: &[u8]) -> Result<(StepKind, &[u8]), usize>
    ensures gives { Gives (λ r. (r.0, r.1.now)) result (stub_at bytes.now) }
    ensures near { Near (λ r. length r.1.now) 1 67 (length bytes.now) result }
{
    let (number, rest) = stage_of(b"stub ", bytes)?;
    Ok((StepKind::Stub(stage(number)), rest))
}

/// What a step does at the front, in any of the kinds, and what stands behind it; or how much is
/// left at the first byte behind which no kind stands.
#[tactic(auto, unfolding(crate::specs::Lines::kind_at))]
pub fn kind_of(bytes: &[u8]) -> Result<(StepKind, &[u8]), usize>
    ensures gives { Gives (λ r. (r.0, r.1.now)) result (kind_at bytes.now) }
    ensures near { Near (λ r. length r.1.now) 1 68 (length bytes.now) result }
{
    let left = match act_of(bytes) {
        Ok(found) => return Ok(found),
        Err(left) => left,
    };
    let left = match go_of(bytes) {
        Ok(found) => return Ok(found),
        Err(other) => left.min(other),
    };
    let left = match lose_of(bytes) {
        Ok(found) => return Ok(found),
        Err(other) => left.min(other),
    };
    let left = match again_of(bytes) {
        Ok(found) => return Ok(found),
        Err(other) => left.min(other),
    };
    let left = match kill_of(bytes) {
        Ok(found) => return Ok(found),
        Err(other) => left.min(other),
    };
    match stub_of(bytes) {
        Ok(found) => Ok(found),
        Err(other) => Err(left.min(other)),
    }
}
