//! One spare list of dependencies.

ghost use Rattle.std.specs.Prelude.{◌≡◌, ◌≤◌, length, IfOk};

use causal_context::Dep;
use rss_names::Seq;
use std::alloc::{AllocError, Global};
use std::marker::Model;

/// An empty list. Contracts see for how many dependencies it has room.
#[derive(Drop)]
pub struct SpareList {
    list: Vec<Dep>,
}

impl Model for SpareList {
    ghost use Rattle.std.specs.Prelude.{◌≡◌, ℕ, vec_len, vec_capacity};

    ghost Value = { ℕ };

    ghost view = { λ s. vec_capacity s.list };

    ghost invariant = { λ s. vec_len s.list ≡ 0 };
}

impl SpareList {
    /// A list with room for this many dependencies.
    pub fn new(alloc: Global, width: usize) -> Result<SpareList, AllocError>
        ensures { IfOk result (λ list. width ≤ list) }
    {
        Ok(SpareList {
            list: Vec::with_capacity(alloc, width)?,
        })
    }

    /// The list with these dependencies in it. Takes no memory.
    pub fn filled(self, deps: &[Dep]) -> Seq<Dep>
        requires room { length deps.now ≤ self }
        ensures { result ≡ deps.now }
    {
        let SpareList { mut list } = self;
        list.extend_from_slice(deps).unwrap();
        Seq::from_vec(list)
    }
}
