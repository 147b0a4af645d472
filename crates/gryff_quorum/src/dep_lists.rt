//! Spare lists of dependencies, so that requests that hold one are made without memory.

ghost use Rattle.std.specs.Prelude.{◌≡◌, ◌+◌, ◌<◌, ◌≤◌, length, OnOk};
ghost use Rattle.gryff_quorum.specs.Spare.{IsCopyable, lists_of};

use crate::spare_list::SpareList;
use causal_context::Dep;
use rss_names::Seq;
use rss_wire::Request;
use std::alloc::{AllocError, Global};
use std::marker::Model;

/// Empty lists with room for dependencies. Contracts see how many there are, and for how many
/// dependencies each has room at least.
pub struct DepLists {
    alloc: Global,
    lists: Vec<SpareList>,
    width: usize,
}

// Written out, so that a caller who lets spare lists go sees one call and none of its parts.
impl Drop for DepLists {
    fn drop(self) {
        let DepLists {
            alloc: _alloc,
            lists: _lists,
            width: _width,
        } = self;
    }
}

impl Model for DepLists {
    ghost use Rattle.std.specs.Prelude.{◌≤◌, vec_len};
    ghost use Rattle.std.specs.List.{All};
    ghost use Rattle.gryff_quorum.specs.Spare.{DepListsView};

    ghost Value = { DepListsView };

    ghost view = { λ d. record { count = vec_len d.lists; width = d.width } };

    ghost invariant = { λ d. All (λ room. d.width ≤ room) d.lists.items };
}

impl DepLists {
    /// No list.
    pub fn new(alloc: Global) -> DepLists
        ensures { result ≡ record { count = 0; width = 0 } }
    {
        DepLists {
            alloc,
            lists: Vec::new(alloc),
            width: 0,
        }
    }

    /// Makes at least this many lists, each with room for at least this many dependencies. An `Err` is
    /// want of memory: there may then be fewer lists than before.
    pub fn make_room(&mut self, count: usize, width: usize) -> Result<(), AllocError>
        ensures count { OnOk result (count ≤ self.new.count) }
        ensures width { OnOk result (width ≤ self.new.width) }
        ensures stays { OnOk result ((self.old.count ≤ self.new.count) × (self.old.width ≤ self.new.width)) }
    {
        let wanted = count.max(self.lists.len());
        if self.width < width {
            self.lists.clear();
            self.width = width;
        }
        while self.lists.len() < wanted {
            self.add()?;
        }
        Ok(())
    }

    /// A list of these dependencies. Takes no memory.
    pub fn copy(&mut self, deps: &[Dep]) -> Seq<Dep>
        requires list { 0 < self.old.count }
        requires wide { length deps.now ≤ self.old.width }
        ensures same { result ≡ deps.now }
        ensures taken { self.new.count + 1 ≡ self.old.count }
        ensures width { self.new.width ≡ self.old.width }
    {
        self.lists.pop().unwrap().filled(deps)
    }

    /// An equal request, of the four of a replica. Takes no memory, and a list only for `Fix`.
    pub fn copy_request(&mut self, r: &Request) -> Request
        requires copyable { IsCopyable self.old r.now }
        ensures same { result ≡ r.now }
        ensures taken { self.new.count + lists_of r.now ≡ self.old.count }
        ensures width { self.new.width ≡ self.old.width }
    {
        match r {
            Request::Fix { deps } => Request::Fix {
                deps: self.copy(deps.as_slice()),
            },
            Request::Ask { key } => Request::Ask { key: *key },
            Request::Stamp { key } => Request::Stamp { key: *key },
            Request::Store {
                key,
                value,
                stamp,
                writer,
            } => Request::Store {
                key: *key,
                value: *value,
                stamp: *stamp,
                writer: *writer,
            },
            Request::Lock { .. }
            | Request::Prepare { .. }
            | Request::Decide { .. }
            | Request::Commit { .. }
            | Request::Abort { .. }
            | Request::Inquire { .. }
            | Request::Release { .. }
            | Request::Snapshot { .. } => unreachable!(),
        }
    }

    // One more list.
    fn add(&mut self) -> Result<(), AllocError>
        ensures added { OnOk result (self.new.count ≡ self.old.count + 1) }
        ensures width { self.new.width ≡ self.old.width }
    {
        let list = SpareList::new(self.alloc, self.width)?;
        self.lists.push(list)?;
        Ok(())
    }
}
