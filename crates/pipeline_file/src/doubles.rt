//! Names that are declared twice, and tables of those that are not.

ghost use Rattle.std.specs.Prelude.{◌≡◌, ◌++◌, [], ◌∷◌, not, None, true, false, cond, IfOk, OnOk, OnErr};
ghost use Rattle.pipeline_lang.specs.Positions.{has_name};
ghost use Rattle.pipeline_tables.specs.Faults.{Tells};
ghost use Rattle.pipeline_file.specs.declared.declaration.NameSet.TheVariants.{Shared};
ghost use Rattle.pipeline_file.specs.Doubles.{belongs, first_double, double_fault, no_doubles, same_kind, names_of};

use crate::declaration::{Declaration, NameKind, NameSet};
use indexmap::IndexSet;
use pipeline_lang::NameTable;
use pipeline_tables::{FaultKind, FileError, Place};
use rss_names::Name;
use std::alloc::{AllocError, Global};
use std::marker::Model;

/// Names that were seen. Contracts see their list.
#[derive(Drop)]
struct Seen {
    names: IndexSet<Name>,
}

impl Model for Seen {
    ghost use Rattle.std.specs.Prelude.{ℕ, List};

    ghost Value = { List (List ℕ) };

    ghost view = { λ s. s.names.keys };
}

impl Seen {
    /// No names.
    fn new(alloc: Global) -> Seen
        ensures { result ≡ [] }
    {
        Seen {
            names: IndexSet::new(alloc),
        }
    }

    /// Whether a name was seen.
    fn has(&self, name: &Name) -> bool
        ensures { result ≡ has_name name.now self.now }
    {
        self.names.contains(name)
    }

    /// Notes a name that was not seen yet.
    fn add(&mut self, name: Name) -> Result<(), AllocError>
        requires new { has_name name self.old ≡ false }
        ensures { OnOk result (self.new ≡ self.old ++ name ∷ []) }
    {
        match self.names.insert(name) {
            Ok(_) => Ok(()),
            Err(_) => Err(AllocError),
        }
    }
}

/// Whether the names of a kind belong to a set.
fn belongs(names: NameSet, kind: NameKind) -> bool
    ensures { result ≡ belongs names kind }
{
    match names {
        NameSet::Shared => !matches!(kind, NameKind::Killed | NameKind::Service),
        NameSet::Killed => matches!(kind, NameKind::Killed),
        NameSet::Services => matches!(kind, NameKind::Service),
    }
}

/// The place of the first declaration of a set whose name was seen or stands before it.
#[tactic(auto, using(crate::proofs::Distinct::first_double_drop), unfolding(crate::specs::Doubles::first_double))]
fn first_seen(
    seen: &mut Seen,
    names: NameSet,
    declarations: &[Declaration],
) -> Result<Option<Place>, AllocError>
    ensures { IfOk result (λ place. place ≡ first_double names seen.old declarations.now) }
{
    for declaration in declarations {
        if belongs(names, declaration.kind) {
            if seen.has(&declaration.name) {
                return Ok(Some(declaration.place));
            }
            seen.add(declaration.name)?;
        }
    }
    Ok(None)
}

/// The place of the first declaration of a set whose name stands before it.
fn first_double(
    alloc: Global,
    names: NameSet,
    declarations: &[Declaration],
) -> Result<Option<Place>, AllocError>
    ensures { IfOk result (λ place. place ≡ first_double names [] declarations.now) }
{
    let mut seen = Seen::new(alloc);
    first_seen(&mut seen, names, declarations)
}

/// Tests that no name of a set is declared twice.
fn check_set(alloc: Global, names: NameSet, declarations: &[Declaration]) -> Result<(), FileError>
    ensures { Tells result (double_fault (first_double names [] declarations.now)) }
{
    match first_double(alloc, names, declarations)? {
        Some(place) => Err(FileError::Fault(place.fault(FaultKind::DoubleName))),
        None => Ok(()),
    }
}

/// Tests that no name is declared twice: first the shared names, then the killed stages, then the
/// services.
#[tactic(auto, unfolding(crate::specs::Doubles::no_doubles))]
pub fn check_doubles(alloc: Global, declarations: &[Declaration]) -> Result<(), FileError>
    ensures same { Tells result (no_doubles declarations.now) }
    ensures alone { OnOk result (first_double Shared [] declarations.now ≡ None) }
{
    check_set(alloc, NameSet::Shared, declarations)?;
    check_set(alloc, NameSet::Killed, declarations)?;
    check_set(alloc, NameSet::Services, declarations)
}

/// Adds a name that a table lacks. A table holds at most 65,535 names.
fn add_name(table: &mut NameTable, name: Name) -> Result<(), AllocError>
    requires new { has_name name table.old ≡ false }
    ensures { OnOk result (table.new ≡ table.old ++ name ∷ []) }
{
    if table.len() >= 65_535 {
        return Err(AllocError);
    }
    table.add(name)
}

/// Adds the name of a declaration of a kind.
fn add_of_kind(
    table: &mut NameTable,
    declaration: &Declaration,
    kind: NameKind,
) -> Result<(), AllocError>
    requires new { same_kind kind declaration.now.kind ≡ true → has_name declaration.now.name table.old ≡ false }
    ensures { OnOk result (table.new ≡ cond (same_kind kind declaration.now.kind) (table.old ++ declaration.now.name ∷ []) table.old) }
{
    if kind == declaration.kind {
        return add_name(table, declaration.name);
    }
    Ok(())
}

/// The table of the names of a kind that shares the common set.
pub fn table_of(
    alloc: Global,
    declarations: &[Declaration],
    kind: NameKind,
) -> Result<NameTable, AllocError>
    requires alone { first_double Shared [] declarations.now ≡ None }
    requires shared { belongs Shared kind ≡ true }
    ensures { IfOk result (λ table. table ≡ names_of kind declarations.now) }
{
    let mut table = NameTable::new(alloc);
    for declaration in declarations {
        add_of_kind(&mut table, declaration, kind)?;
    }
    Ok(table)
}
