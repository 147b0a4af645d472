//! Where an entry leads the walks that stand before it.

ghost use Rattle.std.specs.Prelude.{◌≡◌, ◌++◌, ◌<◌, length, IfOk, OnOk};
ghost use Rattle.std.specs.List.{flat_map};
ghost use Rattle.plain_script.specs.Standing.{is_got as is_taken, taken_by, leads_of, passed_of, next_states as states_behind};

use crate::told::Told;
use crate::ways::states_at;
use pipeline_lang::Config;
use plain_walk::{StageWalk, entry_stage, entry_step, take_step};
use rss_model::{Entry, Token, is_same_token};
use std::alloc::{AllocError, Global};

// Whether a stage gets what was told.
fn is_got(stage: u8, one: Told, entry: &Entry) -> bool
    ensures { result ≡ is_taken stage one entry.now }
{
    match entry {
        Entry::Get(taker, token) => {
            taker.number() == stage && is_same_token(token, &Token::Chunk(one.pipe, one.number))
        }
        _ => false,
    }
}

// Adds where an entry leads a walk by what was told.
#[tactic(auto, unfolding(crate::specs::Standing::taken_by))]
fn add_taken(
    alloc: Global,
    config: &Config,
    stage: u8,
    entry: &Entry,
    next: &mut Vec<StageWalk>,
    walk: &StageWalk,
    one: Told,
) -> Result<(), AllocError>
    ensures { OnOk result (next.new.items ≡
        next.old.items ++ taken_by config.now stage entry.now walk.now one) }
{
    if !is_got(stage, one, entry) {
        return Ok(());
    }
    if let Some(led) = take_step(alloc, config, stage, walk, one.pipe, one.number, one.value)? {
        next.push(led)?;
    }
    Ok(())
}

// Adds where an entry leads a walk by all that was told.
fn add_all_taken(
    alloc: Global,
    config: &Config,
    stage: u8,
    entry: &Entry,
    next: &mut Vec<StageWalk>,
    walk: &StageWalk,
    told: &[Told],
) -> Result<(), AllocError>
    ensures { OnOk result (next.new.items ≡
        next.old.items ++ flat_map (taken_by config.now stage entry.now walk.now) told.now) }
{
    for one in told {
        add_taken(alloc, config, stage, entry, next, walk, *one)?;
    }
    Ok(())
}

// Adds where the entry at a place leads a walk.
#[tactic(auto, unfolding(crate::specs::Standing::leads_of))]
fn add_leads(
    alloc: Global,
    config: &Config,
    h: &[Entry],
    stage: u8,
    place: usize,
    told: &[Told],
    next: &mut Vec<StageWalk>,
    walk: &StageWalk,
) -> Result<(), AllocError>
    requires { place < length h.now }
    ensures { OnOk result (next.new.items ≡
        next.old.items ++ leads_of config.now h.now stage place told.now walk.now) }
{
    let entry = &h[place];
    if let Some(led) = entry_step(alloc, config, h, stage, &h[..place], entry, walk)? {
        next.push(led)?;
    }
    add_all_taken(alloc, config, stage, entry, next, walk, told)
}

// The walks that the entry at a place passes by.
#[tactic(auto, unfolding(crate::specs::Standing::passed_of))]
fn passed(
    alloc: Global,
    h: &[Entry],
    stage: u8,
    place: usize,
    bases: &[StageWalk],
) -> Result<Vec<StageWalk>, AllocError>
    requires { place < length h.now }
    ensures { IfOk result (λ walks. walks.items ≡ passed_of h.now stage place bases.now) }
{
    if entry_stage(h, &h[place]) == stage {
        return Ok(Vec::new(alloc));
    }
    copied(alloc, bases)
}

// Equal walks.
fn copied(alloc: Global, walks: &[StageWalk]) -> Result<Vec<StageWalk>, AllocError>
    ensures { IfOk result (λ copies. copies.items ≡ walks.now) }
{
    let mut copies = Vec::new(alloc);
    for walk in walks {
        copies.push(walk.try_clone(alloc)?)?;
    }
    Ok(copies)
}

/// The walks of a stage behind the entry at a place.
#[tactic(auto, unfolding(crate::specs::Standing::next_states))]
pub(crate) fn next_states(
    alloc: Global,
    config: &Config,
    h: &[Entry],
    stage: u8,
    place: usize,
    told: &[Told],
    bases: &[StageWalk],
) -> Result<Vec<StageWalk>, AllocError>
    requires { place < length h.now }
    ensures { IfOk result (λ walks.
        walks.items ≡ states_behind config.now h.now stage place told.now bases.now) }
{
    let mut next = passed(alloc, h, stage, place, bases)?;
    let walks = states_at(alloc, config, h, stage, bases)?;
    for walk in &walks {
        add_leads(alloc, config, h, stage, place, told, &mut next, walk)?;
    }
    Ok(next)
}
