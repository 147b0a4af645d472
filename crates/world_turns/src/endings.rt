//! How the run stands.

ghost use Rattle.std.specs.Prelude.{◌≡◌, ◌+◌, ◌≤◌, ◌||◌, length};
ghost use Rattle.rss_machine.specs.Enabling.{act_enabling as act_enabling_of, stub_enabling as stub_enabling_of, is_possible as is_possible_in};
ghost use Rattle.rss_machine.specs.Endings.{ending_of, all_settled as all_settled_in, any_possible as any_possible_in};
ghost use Rattle.rss_machine.specs.Standing.{is_settled as is_settled_in};
ghost use Rattle.world_machine.specs.Machine.{state_of};
ghost use Rattle.world_turns.specs.Asked.{CanTell};

use rss_machine::{Enabling, Ending};
use rss_names::StageId;
use world_machine::Machine;

/// How the run stands.
#[tactic(auto, unfolding(rss_machine::specs::Endings::ending_of), using(crate::proofs::Standings::hurt_anywhere))]
pub fn ending(m: &Machine) -> Ending
    requires can { CanTell m.now }
    ensures { result ≡ ending_of m.now.config (state_of m.now) }
{
    let stages = m.staging.stage_count() as u8;
    if all_settled(m, 1, stages) {
        if m.staging.any_hurt() {
            Ending::Hurt
        } else {
            Ending::Done
        }
    } else if m.steps() >= m.config.max_steps {
        Ending::Limit
    } else if m.pending() == 0 && !any_possible(m, 1, stages) {
        Ending::Stuck
    } else {
        Ending::Unfinished
    }
}

// Whether all of these many stages from a number on are settled.
#[tactic(auto, using(crate::proofs::Standings::settled_one_more))]
fn all_settled(m: &Machine, number: u8, left: u8) -> bool
    requires can { CanTell m.now }
    requires first { 1 ≤ number }
    requires last { number + left ≤ 17 }
    ensures { result ≡ all_settled_in m.now.config (state_of m.now) number left }
{
    if left == 0 {
        return true;
    }
    is_settled(m, number) && all_settled(m, number + 1, left - 1)
}

// Whether a stage is settled.
fn is_settled(m: &Machine, number: u8) -> bool
    requires can { CanTell m.now }
    requires first { 1 ≤ number }
    requires last { number ≤ 16 }
    ensures { result ≡ is_settled_in m.now.config (state_of m.now) number }
{
    match StageId::new(number) {
        Some(stage) => m.is_settled(stage),
        None => false,
    }
}

// Whether an act or a stub's step of one of these many stages from a number on is enabled under some
// reading.
#[tactic(auto, using(crate::proofs::Standings::possible_one_more))]
fn any_possible(m: &Machine, number: u8, left: u8) -> bool
    requires can { CanTell m.now }
    requires first { 1 ≤ number }
    requires last { number + left ≤ 17 }
    ensures { result ≡ any_possible_in m.now.config (state_of m.now) number left }
{
    if left == 0 {
        return false;
    }
    may_move(m, number) || any_possible(m, number + 1, left - 1)
}

// Whether an act or a stub's step of a stage is enabled under some reading.
fn may_move(m: &Machine, number: u8) -> bool
    requires can { CanTell m.now }
    requires first { 1 ≤ number }
    requires last { number ≤ 16 }
    ensures { result ≡ (is_possible_in (act_enabling_of m.now.config (state_of m.now) number) || is_possible_in (stub_enabling_of (state_of m.now) number)) }
{
    match StageId::new(number) {
        Some(stage) => {
            let acts = m.act_enabling(stage);
            let settles = m.stub_enabling(stage);
            is_possible(acts) || is_possible(settles)
        }
        None => false,
    }
}

// Enabled under some reading.
fn is_possible(enabling: Enabling) -> bool
    ensures { result ≡ is_possible_in enabling }
{
    match enabling {
        Enabling::Never => false,
        Enabling::Always => true,
        Enabling::After(_) => true,
    }
}
