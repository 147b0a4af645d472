//! One spare list, kept until a request is made of it.

ghost use Rattle.std.specs.Prelude.{◌≡◌, ◌≤◌, [], IfOk, vec_capacity};

use std::alloc::{AllocError, Global};
use std::marker::Model;

/// An empty list. Contracts see for how many items it has room.
#[derive(Drop)]
pub struct SpareList<T> {
    list: Vec<T>,
}

impl<T> Model for SpareList<T> {
    ghost use Rattle.std.specs.Prelude.{◌≡◌, ℕ, vec_len, vec_capacity};

    ghost Value = { ℕ };

    ghost view = { λ s. vec_capacity s.list };

    ghost invariant = { λ s. vec_len s.list ≡ 0 };
}

impl<T> SpareList<T> {
    /// A list with room for this many items. An `Err` is want of memory.
    pub fn new(alloc: Global, width: usize) -> Result<SpareList<T>, AllocError>
        ensures { IfOk result (λ list. width ≤ list) }
    {
        Ok(SpareList {
            list: Vec::with_capacity(alloc, width)?,
        })
    }

    /// The empty list.
    pub fn open(self) -> Vec<T>
        ensures empty { result.items ≡ [] }
        ensures room { self ≤ vec_capacity result }
    {
        let SpareList { list } = self;
        list
    }
}
