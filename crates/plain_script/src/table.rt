//! All walks at each place of a history, by stage.

ghost use Rattle.std.specs.Prelude.{◌≡◌, ℕ, ◌<◌, length, IfOk};
ghost use Rattle.rss_model.specs.History.{entry_at};
ghost use Rattle.plain_script.specs.Standing.{first_states as states_first, first_table as table_first, next_table as table_behind, standing, GivesWithin};

use crate::leads::next_states;
use crate::told::{Told, add_told};
use pipeline_lang::Config;
use plain_walk::StageWalk;
use rss_model::Entry;
use rss_names::Seq;
use std::alloc::{AllocError, Global};

// How many numbers a stage can have, with 0, which is none.
const STAGES: u8 = 17;

// The walks of a stage before the first entry.
fn first_states(alloc: Global, config: &Config, stage: u8) -> Result<Seq<StageWalk>, AllocError>
    ensures { IfOk result (λ walks. walks ≡ states_first config.now stage) }
{
    let mut walks = Vec::new(alloc);
    walks.push(StageWalk::first(alloc, config, stage)?)?;
    Ok(Seq::from_vec(walks))
}

// The walks of all stages before the first entry.
#[tactic(auto, unfolding(crate::specs::Standing::first_table))]
fn first_table(alloc: Global, config: &Config) -> Result<Vec<Seq<StageWalk>>, AllocError>
    ensures table { IfOk result (λ table. table.items ≡ table_first config.now) }
    ensures stages { IfOk result (λ table. length table.items ≡ 17) }
{
    let mut table = Vec::new(alloc);
    for stage in 0..STAGES {
        table.push(first_states(alloc, config, stage)?)?;
    }
    Ok(table)
}

// The walks of all stages behind the entry at a place.
#[tactic(auto, unfolding(crate::specs::Standing::next_table))]
fn next_table(
    alloc: Global,
    config: &Config,
    h: &[Entry],
    place: usize,
    told: &[Told],
    table: &[Seq<StageWalk>],
) -> Result<Vec<Seq<StageWalk>>, AllocError>
    requires there { place < length h.now }
    requires stages { length table.now ≡ 17 }
    ensures table { IfOk result (λ next.
        next.items ≡ table_behind config.now h.now place told.now 0 table.now) }
    ensures stages { IfOk result (λ next. length next.items ≡ 17) }
{
    let mut next = Vec::new(alloc);
    for (stage, bases) in table.iter().enumerate() {
        let walks = next_states(alloc, config, h, stage as u8, place, told, bases.as_slice())?;
        next.push(Seq::from_vec(walks))?;
    }
    Ok(next)
}

/// The walks of all stages behind a history.
pub(crate) fn final_table(
    alloc: Global,
    config: &Config,
    h: &[Entry],
) -> Result<Vec<Seq<StageWalk>>, AllocError>
    ensures table { IfOk result (λ table.
        table.items ≡ (standing config.now h.now (length h.now)).table) }
    ensures stages { IfOk result (λ table. length table.items ≡ 17) }
    ensures within { IfOk result (λ table. (i : ℕ) → i < length h.now →
        GivesWithin (entry_at h.now i)) }
{
    let mut table = first_table(alloc, config)?;
    let mut told = Vec::new(alloc);
    for place in 0..h.len() {
        let next = next_table(alloc, config, h, place, &told, &table)?;
        add_told(alloc, config, h, &table, &mut told, &h[place])?;
        table = next;
    }
    Ok(table)
}
