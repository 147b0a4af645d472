//! Whose turn it is: the next step of a stage.

ghost use Rattle.std.specs.Prelude.{◌≡◌, ◌+◌};
ghost use Rattle.rss_machine.specs.Enabling.{act_enabling as act_enabling_of, stub_enabling as stub_enabling_of};
ghost use Rattle.rss_machine.specs.State.{stage_at};
ghost use Rattle.rss_machine.specs.Turns.{next_for as next_for_in, message_turn as message_turn_in, life_turn as life_turn_in, live_turn as live_turn_in, turn_of, kills_at as kills_at_in};
ghost use Rattle.rss_machine.specs.declared.turn.Turn.TheVariants.{Over as OverTurn};
ghost use Rattle.world_machine.specs.Machine.{state_of};
ghost use Rattle.world_turns.specs.Asked.{CanTell};

use crate::waits;
use file_orders::{is_withheld, kills_at};
use pipeline_lang::Config;
use rss_machine::{Enabling, Life, StepKind, Turn};
use rss_names::StageId;
use rss_wire::Envelope;
use world_machine::Machine;

/// The next step of a stage, or why it has none. The first message of it that is still to come goes
/// before all else; it is lost where the file withholds it.
pub fn next_for(m: &Machine, stage: StageId) -> Turn
    requires can { CanTell m.now }
    ensures { result ≡ next_for_in m.now.config (state_of m.now) stage }
{
    match m.due(stage) {
        Some(envelope) => message_turn(&m.config, &envelope),
        None => life_turn(m, stage),
    }
}

// A message that is due is delivered, or lost where the file withholds it.
fn message_turn(config: &Config, envelope: &Envelope) -> Turn
    ensures { result ≡ message_turn_in config.now envelope.now }
{
    if is_withheld(config, envelope) {
        Turn::Step(StepKind::Lose(envelope.number))
    } else {
        Turn::Step(StepKind::Go(envelope.number))
    }
}

// The turn of a stage that no message is due for.
fn life_turn(m: &Machine, stage: StageId) -> Turn
    requires can { CanTell m.now }
    ensures { result ≡ life_turn_in m.now.config (state_of m.now) stage (stage_at (state_of m.now) stage).life }
{
    match m.life(stage) {
        Life::Unborn => Turn::Unborn,
        Life::Live => live_turn(m, stage),
        Life::Over(_) => stub_turn(m, stage),
    }
}

// The turn of a live stage: its act, or the kill of the file in its place, or what it waits for.
fn live_turn(m: &Machine, stage: StageId) -> Turn
    requires can { CanTell m.now }
    ensures { result ≡ live_turn_in m.now.config (state_of m.now) stage (act_enabling_of m.now.config (state_of m.now) stage) }
{
    match m.act_enabling(stage) {
        Enabling::Never => waits::blocked_turn(m, stage),
        Enabling::Always => {
            if is_killed(m, stage) {
                Turn::Step(StepKind::Kill(stage))
            } else {
                Turn::Step(StepKind::Act(stage))
            }
        }
        Enabling::After(time) => {
            if is_killed(m, stage) {
                Turn::Step(StepKind::Kill(stage))
            } else {
                Turn::Past(StepKind::Act(stage), time)
            }
        }
    }
}

// Whether the file kills a stage in place of its next act.
fn is_killed(m: &Machine, stage: StageId) -> bool
    requires can { CanTell m.now }
    ensures { result ≡ kills_at_in m.now.config stage ((stage_at (state_of m.now) stage).acts + 1) }
{
    kills_at(&m.config, stage, m.acts(stage) + 1)
}

// The turn of a stage that is over: the step of its stub.
fn stub_turn(m: &Machine, stage: StageId) -> Turn
    ensures { result ≡ turn_of (StepKind.Stub stage) OverTurn (stub_enabling_of (state_of m.now) stage) }
{
    match m.stub_enabling(stage) {
        Enabling::Never => Turn::Over,
        Enabling::Always => Turn::Step(StepKind::Stub(stage)),
        Enabling::After(time) => Turn::Past(StepKind::Stub(stage), time),
    }
}
