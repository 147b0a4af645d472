//! Tables by number: what was first noted of each.

ghost use Rattle.std.specs.Prelude.{◌≡◌, ◌<◌, ◌^◌, ℕ, length, IfOk, OnOk};
ghost use Rattle.rss_machine.specs.ReportText.{place_in};
ghost use Rattle.call_tables.specs.Tables.{held, first_of, only_at};

use rss_machine::Placed;
use std::alloc::{AllocError, Global};

/// What a table holds of a number.
pub fn held_at(table: &[Option<usize>], number: u32) -> Option<usize>
    ensures { result ≡ held table.now number }
{
    let place = number as usize;
    if place < table.len() {
        table[place]
    } else {
        None
    }
}

/// The place of each placed call, by its number. An `Err` is want of memory.
pub fn places_by_call(alloc: Global, places: &[Placed]) -> Result<Vec<Option<usize>>, AllocError>
    ensures { IfOk result (λ table. (call : ℕ) → held table.items call ≡ place_in call places.now) }
{
    let mut table = Vec::new(alloc);
    for placed in places {
        note(&mut table, placed.call.number(), placed.place as usize)?;
    }
    Ok(table)
}

/// Notes a value of a number, unless one was noted before.
#[tactic(auto, using(crate::proofs::Noted::noted))]
pub(crate) fn note(
    table: &mut Vec<Option<usize>>,
    number: u32,
    value: usize,
) -> Result<(), AllocError>
    ensures { OnOk result ((n : ℕ) →
        held table.new.items n ≡ first_of (held table.old.items n) (only_at number value n)) }
{
    let place = number as usize;
    reach(table, place)?;
    put_first(table, place, value);
    Ok(())
}

// Makes a table long enough to hold something at a place.
fn reach(table: &mut Vec<Option<usize>>, place: usize) -> Result<(), AllocError>
    requires small { place < 2 ^ 32 }
    ensures same { OnOk result ((n : ℕ) → held table.new.items n ≡ held table.old.items n) }
    ensures reached { OnOk result (place < length table.new.items) }
{
    if place < table.len() {
        return Ok(());
    }
    table.resize(place + 1, None)
}

// Puts a value at a place, unless there is one.
fn put_first(table: &mut Vec<Option<usize>>, place: usize, value: usize)
    requires within { place < length table.old.items }
    ensures { (n : ℕ) →
        held table.new.items n ≡ first_of (held table.old.items n) (only_at place value n) }
{
    if table[place].is_none() {
        table[place] = Some(value);
    }
}
