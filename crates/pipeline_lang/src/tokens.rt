//! The tokens of a line.

ghost use Rattle.std.specs.Prelude.{◌≡◌, ◌≤◌, ◌+◌, ◌∷◌, [], length, cond, MatchOption};
ghost use Rattle.rss_names.specs.Names.{is_name_byte};
ghost use Rattle.pipeline_lang.specs.Tokens.{tokens as tokens_of, is_space as space, place as place_of, further};
ghost use Rattle.pipeline_lang.specs.Reading.{begins as begins_with, behind as tokens_behind, Reads, Steps, word_at, end_at};

use crate::stop::Stop;
use std::marker::Model;

/// Whether a byte is a space; a tab and a carriage return count as one.
fn is_space(byte: u8) -> bool
    ensures { result ≡ space byte }
{
    byte == b' ' || byte == b'\t' || byte == b'\r'
}

/// Whether a byte is one of a word.
fn is_word_byte(byte: u8) -> bool
    ensures { result ≡ is_name_byte byte }
{
    byte.is_ascii_lowercase() || byte.is_ascii_digit() || byte == b'_'
}

/// How many bytes at the front are those of a word.
fn word_size(bytes: &[u8]) -> usize
    ensures same { result ≡ further bytes.now }
    ensures within { result ≤ length bytes.now }
{
    let mut size = 0;
    for byte in bytes {
        if !is_word_byte(*byte) {
            return size;
        }
        size += 1;
    }
    size
}

/// The first token of a line, and what stands behind it.
#[tactic(auto, using(crate::proofs::Words::first_word), unfolding(crate::specs::Tokens::tokens))]
fn split_token(line: &[u8]) -> Option<(&[u8], &[u8])>
    ensures { MatchOption result (tokens_of line.now ≡ []) (λ parts.
        tokens_of line.now ≡ record { word = parts.0.now; left = length parts.0.now + length parts.1.now } ∷ tokens_of parts.1.now) }
{
    let mut rest = line;
    while let Some((first, more)) = rest.split_first() {
        if !is_space(*first) {
            let size = word_size(rest).max(1);
            return Some(rest.split_at(size));
        }
        rest = more;
    }
    None
}

/// What is left of a line. Contracts see its tokens.
#[derive(Drop)]
pub struct Line<'a> {
    rest: &'a [u8],
}

impl<'a> Model for Line<'a> {
    ghost use Rattle.std.specs.Prelude.{List};
    ghost use Rattle.pipeline_lang.specs.Tokens.{Token, tokens};

    ghost Value = { List Token };

    ghost view = { λ l. tokens l.rest.now };
}

impl<'a> Line<'a> {
    /// A whole line.
    pub fn new(bytes: &'a [u8]) -> Line<'a>
        ensures { result ≡ tokens_of bytes.now }
    {
        Line { rest: bytes }
    }

    /// Takes the first token: its bytes, and how many bytes of the line stand from its first byte on.
    pub fn token(&mut self) -> Option<(&'a [u8], usize)>
        ensures { MatchOption result (self.old ≡ []) (λ t. self.old ≡ record { word = t.0.now; left = t.1 } ∷ self.new) }
    {
        let (word, more) = split_token(self.rest)?;
        self.rest = more;
        Some((word, word.len() + more.len()))
    }

    /// How many bytes of the line are left where the first token begins, 0 at the line's end.
    pub fn place(&self) -> usize
        ensures { result ≡ place_of self.now }
    {
        match split_token(self.rest) {
            Some((word, more)) => word.len() + more.len(),
            None => 0,
        }
    }

    /// Whether the first token is this word.
    pub fn begins(&self, word: &[u8]) -> bool
        ensures { result ≡ begins_with word.now self.now }
    {
        match split_token(self.rest) {
            Some((first, _)) => first == word,
            None => false,
        }
    }

    /// Takes the first token if it is this word, and says whether it is.
    pub fn takes(&mut self, word: &[u8]) -> bool
        ensures found { result ≡ begins_with word.now self.old }
        ensures after { self.new ≡ cond result (tokens_behind self.old) self.old }
    {
        match split_token(self.rest) {
            Some((first, more)) => {
                if first == word {
                    self.rest = more;
                    true
                } else {
                    false
                }
            }
            None => false,
        }
    }

    /// Takes this word, which is to come first.
    pub fn word(&mut self, word: &[u8]) -> Result<(), Stop>
        ensures { Steps result self.new (word_at word.now self.old) }
    {
        match self.token() {
            Some((first, left)) => {
                if first == word {
                    Ok(())
                } else {
                    Err(Stop::Misfit(left))
                }
            }
            None => Err(Stop::Misfit(0)),
        }
    }

    /// No token is to come.
    pub fn end(&self) -> Result<(), Stop>
        ensures { Steps result self.now (end_at self.now) }
    {
        match split_token(self.rest) {
            Some((word, more)) => Err(Stop::Misfit(word.len() + more.len())),
            None => Ok(()),
        }
    }
}
