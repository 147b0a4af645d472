//! Where the walk of a stage's script begins.

ghost use Rattle.std.specs.Prelude.{◌≡◌, replicate, IfOk};
ghost use Rattle.rss_model.specs.Walk.{first_walk, all_zero, all_open};

use crate::script::is_spawned;
use crate::walk::{Mode, StageWalk};
use pipeline_lang::Config;
use std::alloc::{AllocError, Global};

// How many numbers a variable or a pipe can have.
const NUMBERS: usize = 256;

// This value for each number that a variable or a pipe can have.
fn for_each_number<T: Copy>(alloc: Global, value: T) -> Result<Vec<T>, AllocError>
    ensures { IfOk result (λ values. values.items ≡ replicate 256 value) }
{
    let mut values = Vec::new(alloc);
    values.resize(NUMBERS, value)?;
    Ok(values)
}

// A zero for each number that a variable can have.
#[tactic(auto, unfolding(rss_model::specs::Walk::all_zero))]
fn zero_values(alloc: Global) -> Result<Vec<u64>, AllocError>
    ensures { IfOk result (λ values. values.items ≡ all_zero) }
{
    for_each_number(alloc, 0)
}

// A zero for each number that a pipe can have.
#[tactic(auto, unfolding(rss_model::specs::Walk::all_zero))]
fn zero_numbers(alloc: Global) -> Result<Vec<u32>, AllocError>
    ensures { IfOk result (λ numbers. numbers.items ≡ all_zero) }
{
    for_each_number(alloc, 0)
}

// No end mark for any number that a pipe can have.
#[tactic(auto, unfolding(rss_model::specs::Walk::all_open))]
fn no_marks(alloc: Global) -> Result<Vec<bool>, AllocError>
    ensures { IfOk result (λ marks. marks.items ≡ all_open) }
{
    for_each_number(alloc, false)
}

impl StageWalk {
    /// The walk of a stage before the first entry.
    pub fn first(alloc: Global, config: &Config, stage: u8) -> Result<StageWalk, AllocError>
        ensures { IfOk result (λ walk. walk ≡ first_walk config.now stage) }
    {
        let variables = zero_values(alloc)?;
        let given = zero_numbers(alloc)?;
        let taken = zero_numbers(alloc)?;
        let closed = no_marks(alloc)?;
        let mode = if is_spawned(config, stage) {
            Mode::Unborn
        } else {
            Mode::Ready
        };
        Ok(StageWalk {
            position: 0,
            blocks: Vec::new(alloc),
            variables,
            given,
            taken,
            closed,
            mode,
        })
    }
}
