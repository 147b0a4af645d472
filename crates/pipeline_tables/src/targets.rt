//! The target of a withhold.

ghost use Rattle.std.specs.Prelude.{◌≡◌, ◌≤◌, length, option_map, IfSome};
ghost use Rattle.std.specs.List.{position};
ghost use Rattle.toml.specs.View.{table_view};
ghost use Rattle.pipeline_tables.specs.Targets.{behind, is_no_digit, digits_in, replica_number, service_in, replica_in, target_of, target_at};

use crate::fault::{FaultKind, FileFault, Place};
use crate::tables::TargetName;
use crate::values::text_at;
use rss_names::Name;

/// The text behind a word that it begins with.
fn behind<'a>(word: &[u8], text: &'a [u8]) -> Option<&'a [u8]>
    ensures { option_map (λ rest. rest.now) result ≡ behind word.now text.now }
{
    text.strip_prefix(word)
}

/// The index of the first byte of a text that is no digit.
fn first_other(text: &[u8]) -> Option<usize>
    ensures same { result ≡ position is_no_digit text.now }
    ensures within { IfSome result (λ count. count ≤ length text.now) }
{
    text.iter().position(|byte| !byte.is_ascii_digit())
}

/// How many digits stand at the front of a text.
#[tactic(auto, unfolding(crate::specs::Targets::digits_in))]
fn digits_in(text: &[u8]) -> usize
    ensures same { result ≡ digits_in text.now }
    ensures within { result ≤ length text.now }
{
    match first_other(text) {
        Some(count) => count,
        None => text.len(),
    }
}

/// The number of a replica, 1 to 7, that digits spell.
#[tactic(auto, unfolding(crate::specs::Targets::replica_number))]
fn replica_number(digits: &[u8], place: Place) -> Result<u8, FileFault>
    ensures { result ≡ replica_number place digits.now }
{
    match digits {
        [] => Err(place.fault(FaultKind::WrongKind)),
        [digit] => {
            if *digit >= b'1' && *digit <= b'7' {
                Ok(*digit - b'0')
            } else {
                Err(place.fault(FaultKind::OverLimit))
            }
        }
        [b'0', ..] => Err(place.fault(FaultKind::WrongKind)),
        _ => Err(place.fault(FaultKind::OverLimit)),
    }
}

/// What stands behind the number of a replica: nothing, or a service.
#[tactic(auto, unfolding(crate::specs::Targets::service_in))]
fn service_in(text: &[u8], place: Place) -> Result<Option<Name>, FileFault>
    ensures { result ≡ service_in place text.now }
{
    if text.is_empty() {
        return Ok(None);
    }
    match behind(b" of ", text) {
        Some(text) => match Name::read(text) {
            Ok(name) => Ok(Some(name)),
            Err(_) => Err(place.fault(FaultKind::WrongKind)),
        },
        None => Err(place.fault(FaultKind::WrongKind)),
    }
}

/// What stands behind `replica `.
#[tactic(auto, unfolding(crate::specs::Targets::replica_in))]
fn replica_in(text: &[u8], place: Place) -> Result<TargetName, FileFault>
    ensures { result ≡ replica_in place text.now }
{
    let count = digits_in(text);
    let service = service_in(&text[count..], place)?;
    let number = replica_number(&text[..count], place)?;
    Ok(TargetName::Replica(number, service))
}

/// What a target is.
#[tactic(auto, unfolding(crate::specs::Targets::target_of))]
fn target(text: &[u8], place: Place) -> Result<TargetName, FileFault>
    ensures { result ≡ target_of place text.now }
{
    if let Ok(name) = Name::read(text) {
        return Ok(TargetName::Shard(name));
    }
    match behind(b"replica ", text) {
        Some(text) => replica_in(text, place),
        None => Err(place.fault(FaultKind::WrongKind)),
    }
}

/// The target at a key that must be there.
#[tactic(auto, unfolding(crate::specs::Targets::target_at))]
pub fn target_at(table: &toml::Table, place: Place) -> Result<TargetName, FileFault>
    ensures { result ≡ target_at place (table_view table.now) }
{
    let text = text_at(table, place)?;
    target(text.as_bytes(), place)
}
