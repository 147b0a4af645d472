//! The values of keys.

ghost use Rattle.std.specs.Prelude.{◌≡◌, ◌≤◌, IfOk, IfSome};
ghost use Rattle.toml.specs.View.{view, table_view};
ghost use Rattle.pipeline_tables.specs.Faults.{Gives};
ghost use Rattle.pipeline_tables.specs.Values.{number_of, number_at, number_or, optional_number, replicas_of, replicas_or, text_at, name_of, name_at, optional_name};

use crate::fault::{FaultKind, FileFault, Place};
use crate::keys::find;
use rss_names::Name;
use toml::Value;

/// A number in a range.
#[tactic(auto, unfolding(crate::specs::Values::number_of))]
fn number(value: &Value, least: u32, most: u32, place: Place) -> Result<u32, FileFault>
    ensures same { result ≡ number_of least most place (view value.now) }
    ensures range { IfOk result (λ n. n ≤ most) }
{
    match value.as_integer() {
        Some(number) => {
            if number >= least as i64 && number <= most as i64 {
                Ok(number as u32)
            } else {
                Err(place.fault(FaultKind::OverLimit))
            }
        }
        None => Err(place.fault(FaultKind::WrongKind)),
    }
}

/// The number in a range at a key that must be there.
#[tactic(auto, unfolding(crate::specs::Values::number_at))]
pub fn number_at(table: &toml::Table, place: Place, least: u32, most: u32) -> Result<u32, FileFault>
    ensures same { result ≡ number_at least most place (table_view table.now) }
    ensures range { IfOk result (λ n. n ≤ most) }
{
    match find(table, place.key) {
        Some(value) => number(value, least, most, place),
        None => Err(place.fault(FaultKind::MissingKey)),
    }
}

/// The number in a range at a key with a default.
#[tactic(auto, unfolding(crate::specs::Values::number_or))]
pub fn number_or(
    table: &toml::Table,
    place: Place,
    least: u32,
    most: u32,
    default: u32,
) -> Result<u32, FileFault>
    ensures same { result ≡ number_or default least most place (table_view table.now) }
    ensures range { default ≤ most → IfOk result (λ n. n ≤ most) }
{
    match find(table, place.key) {
        Some(value) => number(value, least, most, place),
        None => Ok(default),
    }
}

/// The number in a range at a key that need not be there.
#[tactic(auto, unfolding(crate::specs::Values::optional_number))]
pub fn optional_number(
    table: &toml::Table,
    place: Place,
    least: u32,
    most: u32,
) -> Result<Option<u32>, FileFault>
    ensures same { result ≡ optional_number least most place (table_view table.now) }
    ensures range { IfOk result (λ found. IfSome found (λ n. n ≤ most)) }
{
    match find(table, place.key) {
        Some(value) => Ok(Some(number(value, least, most, place)?)),
        None => Ok(None),
    }
}

/// A number of replicas: 3, 5 or 7.
#[tactic(auto, unfolding(crate::specs::Values::replicas_of))]
fn replicas(value: &Value, place: Place) -> Result<u8, FileFault>
    ensures { result ≡ replicas_of place (view value.now) }
{
    match value.as_integer() {
        Some(3) => Ok(3),
        Some(5) => Ok(5),
        Some(7) => Ok(7),
        _ => Err(place.fault(FaultKind::WrongKind)),
    }
}

/// The number of replicas at a key with a default.
#[tactic(auto, unfolding(crate::specs::Values::replicas_or))]
pub fn replicas_or(table: &toml::Table, place: Place, default: u8) -> Result<u8, FileFault>
    ensures { result ≡ replicas_or default place (table_view table.now) }
{
    match find(table, place.key) {
        Some(value) => replicas(value, place),
        None => Ok(default),
    }
}

/// The text at a key that must be there.
#[tactic(auto, unfolding(crate::specs::Values::text_at))]
pub fn text_at(table: &toml::Table, place: Place) -> Result<&str, FileFault>
    ensures { Gives (λ text. text.now) result (text_at place (table_view table.now)) }
{
    match find(table, place.key) {
        Some(value) => match value.as_str() {
            Some(text) => Ok(text),
            None => Err(place.fault(FaultKind::WrongKind)),
        },
        None => Err(place.fault(FaultKind::MissingKey)),
    }
}

/// The name that a value is.
#[tactic(auto, unfolding(crate::specs::Values::name_of))]
pub fn name(value: &Value, place: Place) -> Result<Name, FileFault>
    ensures { result ≡ name_of place (view value.now) }
{
    match value.as_str() {
        Some(text) => match Name::read(text.as_bytes()) {
            Ok(name) => Ok(name),
            Err(_) => Err(place.fault(FaultKind::WrongKind)),
        },
        None => Err(place.fault(FaultKind::WrongKind)),
    }
}

/// The name at a key that must be there.
#[tactic(auto, unfolding(crate::specs::Values::name_at))]
pub fn name_at(table: &toml::Table, place: Place) -> Result<Name, FileFault>
    ensures { result ≡ name_at place (table_view table.now) }
{
    match find(table, place.key) {
        Some(value) => name(value, place),
        None => Err(place.fault(FaultKind::MissingKey)),
    }
}

/// The name at a key that need not be there.
#[tactic(auto, unfolding(crate::specs::Values::optional_name))]
pub fn optional_name(table: &toml::Table, place: Place) -> Result<Option<Name>, FileFault>
    ensures { result ≡ optional_name place (table_view table.now) }
{
    match find(table, place.key) {
        Some(value) => Ok(Some(name(value, place)?)),
        None => Ok(None),
    }
}
