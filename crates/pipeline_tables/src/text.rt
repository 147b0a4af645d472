//! How a fault and its place are written.

ghost use Rattle.std.specs.Prelude.{◌≡◌, ◌++◌, codes, OnOk};
ghost use Rattle.std.specs.Fmt.{decimal};
ghost use Rattle.pipeline_tables.specs.FaultText.{kind_word, numbered, table_text, statement_text, place_text, fault_text};

use crate::fault::{FaultKind, FileFault, FileKey, Place, Table};
use std::alloc::{AllocError, Global};

impl FaultKind {
    /// The word of a kind of fault.
    #[tactic(auto, unfolding(crate::specs::FaultText::kind_word))]
    pub fn word(self) -> &'static str
        ensures { result.now ≡ kind_word self }
    {
        match self {
            FaultKind::OverLimit => "OverLimit",
            FaultKind::NotToml => "NotToml",
            FaultKind::UnknownKey => "UnknownKey",
            FaultKind::MissingKey => "MissingKey",
            FaultKind::WrongKind => "WrongKind",
            FaultKind::DoubleName => "DoubleName",
            FaultKind::UnknownName => "UnknownName",
            FaultKind::ServiceShape => "ServiceShape",
            FaultKind::PipeShape => "PipeShape",
            FaultKind::Syntax => "Syntax",
            FaultKind::SpawnShape => "SpawnShape",
        }
    }
}

/// Adds a word and a number behind it.
fn put_number(alloc: Global, text: &mut Vec<u8>, word: &str, number: u64) -> Result<(), AllocError>
    ensures { OnOk result (text.new.items ≡ text.old.items ++ (word.now ++ decimal number)) }
{
    text.extend_from_slice(word.as_bytes())?;
    let digits = number.to_string(alloc)?;
    text.extend_from_slice(digits.as_bytes())
}

/// Adds a table of an array, by its word and its number.
fn put_numbered(
    alloc: Global,
    text: &mut Vec<u8>,
    key: FileKey,
    number: u16,
) -> Result<(), AllocError>
    ensures { OnOk result (text.new.items ≡ text.old.items ++ numbered key number) }
{
    text.extend_from_slice(key.word().as_bytes())?;
    put_number(alloc, text, ".", number as u64)?;
    text.extend_from_slice(b".")
}

/// Adds what stands before the key of a place.
#[tactic(auto, unfolding(crate::specs::FaultText::table_text))]
fn put_table(alloc: Global, text: &mut Vec<u8>, table: Table, number: u16) -> Result<(), AllocError>
    ensures { OnOk result (text.new.items ≡ text.old.items ++ table_text table number) }
{
    match table {
        Table::File => text.extend_from_slice(b"file"),
        Table::Root => Ok(()),
        Table::Shard => put_numbered(alloc, text, FileKey::Shard, number),
        Table::Pipe => put_numbered(alloc, text, FileKey::Pipe, number),
        Table::Stage => put_numbered(alloc, text, FileKey::Stage, number),
        Table::Withhold => put_numbered(alloc, text, FileKey::Withhold, number),
        Table::Kill => put_numbered(alloc, text, FileKey::Kill, number),
        Table::Service => put_numbered(alloc, text, FileKey::Service, number),
    }
}

/// Adds the place in a script.
#[tactic(auto, unfolding(crate::specs::FaultText::statement_text))]
fn put_statement(
    alloc: Global,
    text: &mut Vec<u8>,
    statement: u64,
    column: u64,
) -> Result<(), AllocError>
    ensures { OnOk result (text.new.items ≡ text.old.items ++ statement_text statement column) }
{
    if statement == 0 {
        return Ok(());
    }
    put_number(alloc, text, " statement ", statement)?;
    put_number(alloc, text, " column ", column)
}

impl Place {
    /// Adds the place to a text: `file`, a key of the root, or `table.number.key`, and the place in
    /// a script. Where memory is wanting, only a part of it may have been added.
    #[tactic(auto, unfolding(crate::specs::FaultText::place_text))]
    pub fn append_to(&self, alloc: Global, text: &mut Vec<u8>) -> Result<(), AllocError>
        ensures { OnOk result (text.new.items ≡ text.old.items ++ place_text self.now) }
    {
        put_table(alloc, text, self.table, self.number)?;
        text.extend_from_slice(self.key.word().as_bytes())?;
        put_statement(alloc, text, self.statement, self.column)
    }
}

impl FileFault {
    /// Adds the kind of the fault, a space and its place to a text. Where memory is wanting, only a
    /// part of it may have been added.
    #[tactic(auto, unfolding(crate::specs::FaultText::fault_text))]
    pub fn append_to(&self, alloc: Global, text: &mut Vec<u8>) -> Result<(), AllocError>
        ensures { OnOk result (text.new.items ≡ text.old.items ++ fault_text self.now) }
    {
        text.extend_from_slice(self.kind.word().as_bytes())?;
        text.extend_from_slice(b" ")?;
        self.place.append_to(alloc, text)
    }
}
