//! The lists of all stages.

ghost use Rattle.std.specs.Prelude.{◌≡◌, ◌+◌, ◌-◌, ◌<◌, ◌≤◌, [], ◌∷◌, ◌++◌, ℕ, set, true, length, OnOk};
ghost use Rattle.stage_mail.specs.Lists.{list_at, rises_from, without, first_of, AreGrown, HaveRoom};

use crate::numbers::Numbers;
use rss_names::StageId;
use std::alloc::{AllocError, Global};

/// A list for each stage, in the order of their numbers.
pub type Lists = [Numbers; 16];

/// The lists of all stages, without numbers.
pub fn opening(alloc: Global) -> Lists
    ensures { (place : ℕ) → (list_at result place).numbers ≡ [] }
{
    [
        Numbers::new(alloc),
        Numbers::new(alloc),
        Numbers::new(alloc),
        Numbers::new(alloc),
        Numbers::new(alloc),
        Numbers::new(alloc),
        Numbers::new(alloc),
        Numbers::new(alloc),
        Numbers::new(alloc),
        Numbers::new(alloc),
        Numbers::new(alloc),
        Numbers::new(alloc),
        Numbers::new(alloc),
        Numbers::new(alloc),
        Numbers::new(alloc),
        Numbers::new(alloc),
    ]
}

/// Makes room for at least `n` more numbers of each stage. An `Err` is want of memory.
pub fn make_room(lists: &mut Lists, n: usize) -> Result<(), AllocError>
    ensures grown { AreGrown lists.old lists.new }
    ensures room { OnOk result (HaveRoom 16 n lists.new) }
{
    for place in 0..lists.len() {
        lists[place].make_room(n)?;
    }
    Ok(())
}

/// The place of a stage's list.
pub fn place_of(stage: StageId) -> usize
    ensures place { result + 1 ≡ stage }
    ensures within { result < 16 }
{
    stage.number() as usize - 1
}

/// Adds a number at the end of the list at a place. Takes no memory.
pub fn add(lists: &mut Lists, place: usize, number: u32)
    requires within { place < 16 }
    requires room { length (list_at lists.old place).numbers < (list_at lists.old place).capacity }
    ensures own { lists.new ≡ set lists.old place (list_at lists.new place) }
    ensures added { (list_at lists.new place).numbers ≡ (list_at lists.old place).numbers ++ number ∷ [] }
    ensures memory { (list_at lists.old place).capacity ≤ (list_at lists.new place).capacity }
{
    lists[place].add(number);
}

/// Takes a number out of the list at a place, found by halves.
pub fn take(lists: &mut Lists, place: usize, number: u32)
    requires within { place < 16 }
    requires ascending { rises_from 0 (list_at lists.old place).numbers ≡ true }
    ensures own { lists.new ≡ set lists.old place (list_at lists.new place) }
    ensures left { (list_at lists.new place).numbers ≡ without number (list_at lists.old place).numbers }
    ensures memory { (list_at lists.old place).capacity ≤ (list_at lists.new place).capacity }
{
    lists[place].take(number);
}

/// The first number of the list at a place.
pub fn first(lists: &Lists, place: usize) -> Option<u32>
    requires within { place < 16 }
    ensures { result ≡ first_of (list_at lists.now place).numbers }
{
    lists[place].first()
}
