//! Tables from names to numbers, in file order.

ghost use Rattle.std.specs.Prelude.{◌≡◌, ◌<◌, Some, [], ◌∷◌, ◌++◌, OnOk, OnErr, IfSome, length, slice_get, is_some, false};
ghost use Rattle.std.specs.List.{IsDistinct};
ghost use Rattle.std.specs.Option.{option_copied};
ghost use Rattle.std.specs.Str.{bytes_eq};
ghost use Rattle.pipeline_lang.specs.Positions.{has_name, position_of};

use indexmap::IndexSet;
use rss_names::Name;
use std::alloc::{AllocError, Global};
use std::marker::Model;

/// A table from names to positions, in file order. Contracts see the list of its names, of which
/// no two are equal and which are fewer than 65,536.
pub struct NameTable {
    names: IndexSet<Name>,
}

// Written out, so that who lets a table go sees one call and none of its parts.
impl Drop for NameTable {
    fn drop(self) {
        let NameTable { names: _names } = self;
    }
}

impl Model for NameTable {
    ghost use Rattle.std.specs.Prelude.{List, ◌<◌, length};
    ghost use Rattle.rss_names.specs.declared.name.Name.{Name};

    ghost Value = { List Name };

    ghost view = { λ t. t.names.keys };

    ghost invariant = { λ t. length t.names.keys < 65536 };
}

impl NameTable {
    /// The empty table.
    pub fn new(alloc: Global) -> NameTable
        ensures { result ≡ [] }
    {
        NameTable {
            names: IndexSet::new(alloc),
        }
    }

    /// The number of names, at most 65,535.
    pub fn len(&self) -> usize
        ensures same { result ≡ length self.now }
        ensures bounded { length self.now < 65536 }
        ensures distinct { IsDistinct bytes_eq self.now }
    {
        self.names.len()
    }

    /// Appends a name that the table lacks. Where memory is wanting the table stays.
    pub fn add(&mut self, name: Name) -> Result<(), AllocError>
        requires lacks { has_name name self.old ≡ false }
        requires room { length self.old < 65535 }
        ensures added { OnOk result (self.new ≡ self.old ++ name ∷ []) }
        ensures unchanged { OnErr result (self.new ≡ self.old) }
    {
        match self.names.insert(name) {
            Ok(_) => Ok(()),
            Err(_) => Err(AllocError),
        }
    }

    /// The position of a name, from 0, or None where the table lacks it.
    pub fn position(&self, name: &Name) -> Option<u16>
        ensures first { result ≡ position_of name.now self.now }
        ensures found { is_some result ≡ has_name name.now self.now }
        ensures named { IfSome result (λ at. slice_get self.now at ≡ Some name.now) }
    {
        match self.names.get_index_of(name) {
            Some(index) => Some(index as u16),
            None => None,
        }
    }

    /// The name at a position, from 0, or None where there are no more than that many.
    pub fn name(&self, position: u16) -> Option<&Name>
        ensures named { option_copied result ≡ slice_get self.now position }
        ensures only { IfSome result (λ name. position_of name.now self.now ≡ Some position) }
    {
        self.names.as_slice().get(position as usize)
    }
}
