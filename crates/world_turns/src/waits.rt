//! What a stage waits for.

ghost use Rattle.std.specs.Prelude.{◌≡◌, ℕ, ◌≤◌, Some};
ghost use Rattle.owner_turns.specs.Asked.{awaited_in};
ghost use Rattle.rss_machine.specs.Endings.{awaits_of as awaits_of_in, awaits_in, awaits_statement};
ghost use Rattle.rss_machine.specs.Enabling.{next_statement};
ghost use Rattle.rss_machine.specs.State.{stage_at, owner_at};
ghost use Rattle.rss_machine.specs.Turns.{next_for as next_for_in, blocked_on};
ghost use Rattle.rss_names.specs.declared.attempt.Attempt.{Attempt};
ghost use Rattle.turn_laws.specs.Turns.{lines_in};
ghost use Rattle.world_machine.specs.Machine.{state_of};
ghost use Rattle.world_turns.specs.Asked.{blocked_by, CanTell};

use crate::turns::next_for;
use pipeline_stage::awaits_of_statement;
use rss_machine::Turn;
use rss_names::{CallId, StageId};
use rss_tables::Await;
use world_machine::Machine;

/// What a stage waits for, if its turn is to wait.
pub fn blocked(m: &Machine, stage: StageId) -> Option<Await>
    requires can { CanTell m.now }
    ensures { result ≡ blocked_by (next_for_in m.now.config (state_of m.now) stage) }
{
    match next_for(m, stage) {
        Turn::Blocked(wait) => Some(wait),
        Turn::Step(_) => None,
        Turn::Past(_, _) => None,
        Turn::Unborn => None,
        Turn::Over => None,
    }
}

/// The turn of a live stage whose act no reading enables: it waits for another, or is over.
pub(crate) fn blocked_turn(m: &Machine, stage: StageId) -> Turn
    requires can { CanTell m.now }
    ensures { result ≡ blocked_on (awaits_of_in m.now.config (state_of m.now) stage (stage_at (state_of m.now) stage).owner) }
{
    match awaits_of(m, stage) {
        Some(wait) => Turn::Blocked(wait),
        None => Turn::Over,
    }
}

// What a live stage waits for: the decision of a call that is in the way of its own, or what its next
// statement needs.
fn awaits_of(m: &Machine, stage: StageId) -> Option<Await>
    requires can { CanTell m.now }
    ensures { result ≡ awaits_of_in m.now.config (state_of m.now) stage (stage_at (state_of m.now) stage).owner }
{
    match m.owner_of(stage) {
        Some(owner) => awaits_decision(m, owner),
        None => awaits_next(m, stage),
    }
}

// The call whose decision an owner waits for, if it does.
#[tactic(auto, using(crate::proofs::Awaited::awaits_told))]
fn awaits_decision(m: &Machine, number: u32) -> Option<Await>
    requires calls { (a : Attempt) → awaited_in (lines_in (owner_at (state_of m.now) number).session) ≡ Some a → 1 ≤ a.call }
    ensures { result ≡ awaits_in (owner_at (state_of m.now) number).session }
{
    let Some(owner) = m.owner(number) else {
        return None;
    };
    let Some(attempt) = owner.awaits() else {
        return None;
    };
    match CallId::new(attempt.call) {
        Some(call) => Some(Await::Call(call)),
        None => None,
    }
}

// What a stage waits for that cannot make its next statement.
fn awaits_next(m: &Machine, stage: StageId) -> Option<Await>
    ensures { result ≡ awaits_statement (next_statement m.now.config (state_of m.now) stage) }
{
    match m.staging.next_statement(&m.config, stage) {
        Some(statement) => awaits_of_statement(statement),
        None => None,
    }
}
