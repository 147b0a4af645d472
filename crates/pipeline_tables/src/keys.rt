//! The keys of a table.

ghost use Rattle.std.specs.Prelude.{◌≡◌, option_map, string_bytes};
ghost use Rattle.std.specs.List.{list_all};
ghost use Rattle.std.specs.BTreeMap.{keys};
ghost use Rattle.toml.specs.View.{view, table_view};
ghost use Rattle.pipeline_tables.specs.Keys.{word_of, value_at, is_one_of, has_only, only_keys};

use crate::fault::{FaultKind, FileFault, FileKey, Place, Table};
use toml::Value;

impl FileKey {
    /// How the key is written in a file; `?` for one that the table does not have.
    #[tactic(auto, unfolding(crate::specs::Keys::word_of))]
    pub fn word(self) -> &'static str
        ensures { result.now ≡ word_of self }
    {
        match self {
            FileKey::Absent => "",
            FileKey::Unknown => "?",
            FileKey::Tries => "tries",
            FileKey::MaxSteps => "max_steps",
            FileKey::EarliestEnd => "earliest_end",
            FileKey::Replicas => "replicas",
            FileKey::Registers => "registers",
            FileKey::Drivers => "drivers",
            FileKey::Shard => "shard",
            FileKey::Pipe => "pipe",
            FileKey::Stage => "stage",
            FileKey::Withhold => "withhold",
            FileKey::Kill => "kill",
            FileKey::Service => "service",
            FileKey::Name => "name",
            FileKey::Kind => "kind",
            FileKey::Keys => "keys",
            FileKey::From => "from",
            FileKey::To => "to",
            FileKey::Capacity => "capacity",
            FileKey::Script => "script",
            FileKey::Target => "target",
            FileKey::Count => "count",
            FileKey::Act => "act",
        }
    }
}

/// The value at a key.
pub fn find(table: &toml::Table, key: FileKey) -> Option<&Value>
    ensures { option_map (λ v. view v.now) result ≡ value_at key (table_view table.now) }
{
    table.get(key.word())
}

/// Whether a written key is one of these.
fn is_known(keys: &[FileKey], text: &str) -> bool
    ensures { result ≡ is_one_of keys.now text.now }
{
    keys.iter().any(|key| key.word() == text)
}

/// Whether all keys of a table are among these.
fn all_known(known: &[FileKey], table: &toml::Table) -> bool
    ensures { result ≡ list_all (λ text. is_one_of known.now (string_bytes text)) (keys table.now) }
{
    table.keys().all(|text| is_known(known, text.as_str()))
}

/// Whether a table has these keys alone.
fn has_only(known: &[FileKey], table: &toml::Table) -> bool
    ensures { result ≡ has_only known.now (table_view table.now) }
{
    all_known(known, table)
}

/// Tests that a table has these keys alone.
pub fn check_keys(
    keys: &[FileKey],
    kind: Table,
    number: u16,
    table: &toml::Table,
) -> Result<(), FileFault>
    ensures { result ≡ only_keys keys.now kind number (table_view table.now) }
{
    if has_only(keys, table) {
        Ok(())
    } else {
        Err(Place::key(kind, number, FileKey::Unknown).fault(FaultKind::UnknownKey))
    }
}
