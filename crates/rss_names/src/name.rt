//! Names of stages, shards, keys, registers, pipes, services and variables.

ghost use Rattle.std.specs.Prelude.{◌≡◌, ◌↔◌, ◌≤◌, length, IfOk, IsOk, IsTrue};
ghost use Rattle.std.specs.List.{list_all};
ghost use Rattle.rss_names.specs.Names.{is_name, is_name_byte};

use std::hash::{Hash, Hasher};
use std::marker::Model;
use thiserror::Error;

/// The greatest number of bytes of a name.
const MOST: usize = 16;

/// A name: a lower-case letter, and then at most 15 lower-case letters, digits or `_`. Contracts
/// see its bytes.
#[derive(Clone, Copy)]
pub struct Name {
    bytes: [u8; 16],
    len: u8,
}

impl Model for Name {
    ghost use Rattle.std.specs.Prelude.{ℕ, List, length, take};
    ghost use Rattle.rss_names.specs.Names.{padded, HoldsName};

    ghost Value = { List ℕ };

    ghost view = { λ n. take n.len n.bytes };

    ghost invariant = { λ n. HoldsName n.bytes n.len };

    ghost inverse = { λ text. record { bytes = padded text; len = length text } };

    ghost inverse_ok = { λ n h i. record { bytes = h.zeros i; len = h.sized i } };
}

/// The text is no name.
#[derive(Clone, Copy, Debug, PartialEq, Eq, Error)]
#[error("no name")]
pub struct BadName;

/// Whether a byte may stand behind the first one of a name.
fn may_follow(byte: u8) -> bool
    ensures { result ≡ is_name_byte byte }
{
    byte.is_ascii_lowercase() || byte.is_ascii_digit() || byte == b'_'
}

/// Whether all these bytes may stand behind the first one of a name.
fn all_may_follow(bytes: &[u8]) -> bool
    ensures { result ≡ list_all is_name_byte bytes.now }
{
    bytes.iter().all(|byte| may_follow(*byte))
}

/// Whether a text is a name.
#[tactic(auto, unfolding(crate::specs::Names::is_name))]
fn is_name_text(text: &[u8]) -> bool
    ensures same { result ≡ is_name text.now }
    ensures short { IsTrue result → length text.now ≤ 16 }
{
    match text.split_first() {
        Some((first, rest)) => {
            first.is_ascii_lowercase() && rest.len() < MOST && all_may_follow(rest)
        }
        None => false,
    }
}

impl Name {
    /// The name that a text is. Any other text than a lower-case letter and at most 15 lower-case
    /// letters, digits or `_` behind it is a `BadName`.
    pub fn read(text: &[u8]) -> Result<Name, BadName>
        ensures same { IfOk result (λ name. name ≡ text.now) }
        ensures read { IsOk result ↔ IsTrue (is_name text.now) }
    {
        if !is_name_text(text) {
            return Err(BadName);
        }
        let mut bytes = [0; MOST];
        bytes[..text.len()].copy_from_slice(text);
        Ok(Name {
            bytes,
            len: text.len() as u8,
        })
    }

    /// The bytes of the name, 1 to 16.
    #[tactic(auto, unfolding(crate::specs::Names::is_name))]
    pub fn bytes(&self) -> &[u8]
        ensures same { result.now ≡ self.now }
        ensures named { IsTrue (is_name self.now) }
        ensures least { 1 ≤ length self.now }
        ensures most { length self.now ≤ 16 }
    {
        &self.bytes[..self.len as usize]
    }
}

impl PartialEq for Name {
    ghost use Rattle.std.proofs.Common.{rules};
    ghost use Rattle.std.specs.Cmp.Rules.{comparing};
    ghost use Rattle.std.specs.Str.{bytes_eq};

    ghost eq = { bytes_eq };

    ghost laws = { Prim.search (comparing, rules) };

    fn eq(&self, other: &Name) -> bool
        ensures compared { result ≡ bytes_eq self.now other.now }
        ensures equal { IsTrue result ↔ (self.now ≡ other.now) }
    {
        self.bytes() == other.bytes()
    }
}

impl Eq for Name {
    ghost use Rattle.std.proofs.Common.{rules};
    ghost use Rattle.std.specs.Cmp.Rules.{comparing};

    ghost laws = { Prim.search (comparing, rules) };
}

impl Hash for Name {
    ghost use Rattle.std.proofs.Common.{rules};
    ghost use Rattle.std.specs.Cmp.Rules.{hashing};
    ghost use Rattle.std.specs.Hash as fed;

    ghost hash_input = { fed.slice fed.u8 };

    ghost respects_eq = { Prim.search (hashing, rules) };

    fn hash<H: Hasher>(&self, state: &mut H) {
        self.bytes().hash(state);
    }
}
