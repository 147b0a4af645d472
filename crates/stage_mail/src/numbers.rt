//! The messages of one stage that are still to come.

ghost use Rattle.std.specs.Prelude.{◌≡◌, ◌+◌, ◌<◌, ◌≤◌, [], ◌∷◌, ◌++◌, true, length, OnOk};
ghost use Rattle.stage_mail.specs.Lists.{rises_from, without, first_of};

use std::alloc::{AllocError, Global};
use std::marker::Model;

/// The numbers of the messages of one stage that are still to come. Contracts see them, and for how
/// many the list has memory.
#[derive(Drop)]
pub struct Numbers {
    numbers: Vec<u32>,
}

impl Model for Numbers {
    ghost use Rattle.std.specs.Prelude.{vec_capacity};
    ghost use Rattle.stage_mail.specs.Lists.{DueView};

    ghost Value = { DueView };

    ghost view = { λ d. record { numbers = d.numbers.items; capacity = vec_capacity d.numbers } };
}

impl Numbers {
    /// No numbers.
    pub fn new(alloc: Global) -> Numbers
        ensures { result.numbers ≡ [] }
    {
        Numbers {
            numbers: Vec::new(alloc),
        }
    }

    /// Makes room for at least `n` more. An `Err` is want of memory.
    pub fn make_room(&mut self, n: usize) -> Result<(), AllocError>
        ensures same { self.new.numbers ≡ self.old.numbers }
        ensures more { self.old.capacity ≤ self.new.capacity }
        ensures room { OnOk result (length self.new.numbers + n ≤ self.new.capacity) }
    {
        self.numbers.reserve(n)
    }

    /// Adds a number at the end. Takes no memory.
    pub fn add(&mut self, number: u32)
        requires room { length self.old.numbers < self.old.capacity }
        ensures added { self.new.numbers ≡ self.old.numbers ++ number ∷ [] }
        ensures memory { self.old.capacity ≤ self.new.capacity }
    {
        self.numbers.push(number).unwrap();
    }

    /// Takes a number out, found by halves.
    pub fn take(&mut self, number: u32)
        requires ascending { rises_from 0 self.old.numbers ≡ true }
        ensures left { self.new.numbers ≡ without number self.old.numbers }
        ensures memory { self.old.capacity ≤ self.new.capacity }
    {
        if let Ok(place) = self.numbers.binary_search(&number) {
            self.numbers.remove(place);
        }
    }

    /// The first number.
    pub fn first(&self) -> Option<u32>
        ensures { result ≡ first_of self.now.numbers }
    {
        self.numbers.first().copied()
    }
}
