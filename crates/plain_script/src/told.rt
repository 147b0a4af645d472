//! What was told of the pipes.

ghost use Rattle.std.specs.Prelude.{◌≡◌, ◌<◌, length, OnOk};
ghost use Rattle.plain_script.specs.Standing.{same_value as is_same_value, same_told as is_same_told, is_listed as is_in, with_one, with_telling, with_tellings, told_at, told_by, GivesWithin};

use crate::ways::states_at;
use pipeline_lang::Config;
use plain_walk::{StageWalk, giver_of, tells};
use rss_model::{Entry, Token};
use rss_names::Seq;
use std::alloc::{AllocError, Global};

/// A number of a pipe that was told to be this value, or the end mark.
#[derive(Clone, Copy)]
pub(crate) struct Told {
    pub(crate) pipe: u8,
    pub(crate) number: u32,
    pub(crate) value: Option<u64>,
}

// Whether two values told are the same.
fn same_value(a: Option<u64>, b: Option<u64>) -> bool
    ensures { result ≡ is_same_value a b }
{
    match a {
        Some(value) => match b {
            Some(other) => value == other,
            None => false,
        },
        None => b.is_none(),
    }
}

// Whether the same was told.
fn same_told(a: Told, b: Told) -> bool
    ensures { result ≡ is_same_told a b }
{
    a.pipe == b.pipe && a.number == b.number && same_value(a.value, b.value)
}

// Whether this is among what was told.
fn is_listed(told: &[Told], one: Told) -> bool
    ensures { result ≡ is_in told.now one }
{
    for other in told {
        if same_told(*other, one) {
            return true;
        }
    }
    false
}

// Adds this, unless it is there.
#[tactic(auto, unfolding(crate::specs::Standing::with_one))]
fn add_one(told: &mut Vec<Told>, one: Told) -> Result<(), AllocError>
    ensures { OnOk result (told.new.items ≡ with_one told.old.items one) }
{
    if !is_listed(told, one) {
        told.push(one)?;
    }
    Ok(())
}

// Adds what a walk tells of a number of a pipe, if it does.
fn add_telling(
    told: &mut Vec<Told>,
    pipe: u8,
    number: u32,
    telling: Option<Option<u64>>,
) -> Result<(), AllocError>
    ensures { OnOk result (told.new.items ≡ with_telling told.old.items pipe number telling) }
{
    match telling {
        Some(value) => add_one(
            told,
            Told {
                pipe,
                number,
                value,
            },
        ),
        None => Ok(()),
    }
}

// Adds what these walks of a giver tell.
#[tactic(auto, unfolding(crate::specs::Standing::with_tellings))]
fn add_tellings(
    config: &Config,
    giver: u8,
    pipe: u8,
    number: u32,
    told: &mut Vec<Told>,
    walks: &[StageWalk],
) -> Result<(), AllocError>
    ensures { OnOk result (told.new.items ≡
        with_tellings config.now giver pipe number told.old.items walks.now) }
{
    for walk in walks {
        add_telling(told, pipe, number, tells(config, giver, walk, pipe, number))?;
    }
    Ok(())
}

// Adds what is told where a stage gives a token, if these are the walks of the stages there.
fn add_given(
    alloc: Global,
    config: &Config,
    h: &[Entry],
    table: &[Seq<StageWalk>],
    giver: u8,
    told: &mut Vec<Told>,
    token: &Token,
) -> Result<(), AllocError>
    requires { giver < length table.now }
    ensures { OnOk result (told.new.items ≡
        told_at config.now h.now table.now giver told.old.items token.now) }
{
    match token {
        Token::Chunk(pipe, number) => {
            if giver != giver_of(config, *pipe) {
                return Ok(());
            }
            let walks = states_at(alloc, config, h, giver, table[giver as usize].as_slice())?;
            add_tellings(config, giver, *pipe, *number, told, &walks)
        }
        Token::Spawn(_) | Token::Exit(_) => Ok(()),
    }
}

/// Adds what is told at an entry, if these are the walks of the stages there.
pub(crate) fn add_told(
    alloc: Global,
    config: &Config,
    h: &[Entry],
    table: &[Seq<StageWalk>],
    told: &mut Vec<Told>,
    entry: &Entry,
) -> Result<(), AllocError>
    requires { length table.now ≡ 17 }
    ensures told { OnOk result (told.new.items ≡
        told_by config.now h.now table.now told.old.items entry.now) }
    ensures within { GivesWithin entry.now }
{
    match entry {
        Entry::Give(giver, token) => {
            add_given(alloc, config, h, table, giver.number(), told, token)
        }
        _ => Ok(()),
    }
}
