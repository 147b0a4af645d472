//! Spare lists of one type.

ghost use Rattle.std.specs.Prelude.{◌≡◌, ◌+◌, ◌<◌, ◌≤◌, [], OnOk, vec_capacity};

use crate::spare::SpareList;
use rss_names::MOST_KEYS_OF_A_CALL;
use std::alloc::{AllocError, Global};
use std::marker::Model;

/// The greatest number of keys in a list of an operation.
const WIDTH: usize = MOST_KEYS_OF_A_CALL;

/// Empty lists, each with room for the keys of an operation. Contracts see how many there are.
#[derive(Drop)]
pub struct Lists<T> {
    alloc: Global,
    lists: Vec<SpareList<T>>,
}

impl<T> Model for Lists<T> {
    ghost use Rattle.std.specs.Prelude.{ℕ, ◌≤◌, vec_len};
    ghost use Rattle.std.specs.List.{All};

    ghost Value = { ℕ };

    ghost view = { λ d. vec_len d.lists };

    ghost invariant = { λ d. All (λ room. 8 ≤ room) d.lists.items };
}

impl<T> Lists<T> {
    /// No list.
    pub fn new(alloc: Global) -> Lists<T>
        ensures { result ≡ 0 }
    {
        Lists {
            alloc,
            lists: Vec::new(alloc),
        }
    }

    /// An empty list with room for the keys of an operation. Takes no memory.
    pub fn take(&mut self) -> Vec<T>
        requires { 0 < self.old }
        ensures taken { self.new + 1 ≡ self.old }
        ensures empty { result.items ≡ [] }
        ensures room { 8 ≤ vec_capacity result }
    {
        self.lists.pop().unwrap().open()
    }
}

impl<T: Drop> Lists<T> {
    /// Makes at least this many lists. An `Err` is want of memory, and no list is lost.
    pub fn make_room(&mut self, count: usize) -> Result<(), AllocError>
        ensures count { OnOk result (count ≤ self.new) }
        ensures stays { self.old ≤ self.new }
    {
        while self.lists.len() < count {
            self.add()?;
        }
        Ok(())
    }

    // One more list.
    fn add(&mut self) -> Result<(), AllocError>
        ensures added { OnOk result (self.new ≡ self.old + 1) }
        ensures stays { self.old ≤ self.new }
    {
        let list = SpareList::new(self.alloc, WIDTH)?;
        self.lists.push(list)?;
        Ok(())
    }
}
