//! The bytes of a line that are left to read.

ghost use Rattle.std.specs.Prelude.{◌≡◌, ◌≤◌, ◌+◌, ◌*◌, ◌^◌, ◌-◌, ◌==◌, length, take, drop, cond, nat_lt, true, false, IfOk, MatchOption, Some, None};
ghost use Rattle.rss_names.specs.Names.{is_name_byte};
ghost use Rattle.pipeline_lang.specs.Tokens.{further};
ghost use Rattle.pipeline_lang.specs.Terms.{is_digit, digits, number};
ghost use Rattle.history_text.specs.Reading.{begins as begins_with, behind, word_at, token_at, ranged, Reads, Steps};

use crate::stop::Stop;
use std::marker::Model;

/// Whether a byte is a lower-case letter, a digit or `_`.
fn is_word_byte(byte: u8) -> bool
    ensures { result ≡ is_name_byte byte }
{
    byte.is_ascii_lowercase() || byte.is_ascii_digit() || byte == b'_'
}

/// How many such bytes stand at the front.
fn token_size(bytes: &[u8]) -> usize
    ensures same { result ≡ further bytes.now }
    ensures within { result ≤ length bytes.now }
{
    let mut size = 0;
    for byte in bytes {
        if !is_word_byte(*byte) {
            return size;
        }
        size += 1;
    }
    size
}

/// The value of a decimal digit.
fn digit_of(byte: u8) -> Option<u64>
    ensures { result ≡ cond (is_digit byte) (Some (byte - 48)) None }
{
    if byte.is_ascii_digit() {
        Some((byte - b'0') as u64)
    } else {
        None
    }
}

/// The number below 2^64 that a number goes on to by one more digit.
fn longer(number: u64, digit: u64) -> Option<u64>
    ensures { result ≡ cond (nat_lt (10 * number + digit) (2 ^ 64)) (Some (10 * number + digit)) None }
{
    number.checked_mul(10)?.checked_add(digit)
}

/// The number that a number goes on to by these digits.
#[tactic(auto, unfolding(pipeline_lang::specs::Terms::digits))]
fn digits_of(first: u64, bytes: &[u8]) -> Option<u64>
    ensures { result ≡ digits first bytes.now }
{
    let mut number = first;
    for byte in bytes {
        let digit = digit_of(*byte)?;
        number = longer(number, digit)?;
    }
    Some(number)
}

/// The number that a word is: decimal, below 2^64, without leading zeros.
#[tactic(auto, unfolding(pipeline_lang::specs::Terms::number))]
pub fn number_of(word: &[u8]) -> Option<u64>
    ensures { result ≡ number word.now }
{
    let (first, rest) = word.split_first()?;
    let digit = digit_of(*first)?;
    if digit > 0 {
        digits_of(digit, rest)
    } else if rest.is_empty() {
        Some(0)
    } else {
        None
    }
}

/// What is left of a line. Contracts see its bytes.
#[derive(Drop)]
pub struct Line<'a> {
    rest: &'a [u8],
}

impl<'a> Model for Line<'a> {
    ghost use Rattle.std.specs.Prelude.{ℕ, List};

    ghost Value = { List ℕ };

    ghost view = { λ l. l.rest.now };
}

impl<'a> Line<'a> {
    /// A whole line.
    pub fn new(bytes: &'a [u8]) -> Line<'a>
        ensures { result ≡ bytes.now }
    {
        Line { rest: bytes }
    }

    /// Whether nothing is left.
    pub fn is_empty(&self) -> bool
        ensures { result ≡ (length self.now == 0) }
    {
        self.rest.is_empty()
    }

    /// Whether these bytes come first.
    pub fn begins(&self, word: &[u8]) -> bool
        ensures { result ≡ begins_with word.now self.now }
    {
        self.rest.starts_with(word)
    }

    /// Takes these bytes if they come first, and says whether they do.
    pub fn takes(&mut self, word: &[u8]) -> bool
        ensures found { result ≡ begins_with word.now self.old }
        ensures after { self.new ≡ cond result (behind word.now self.old) self.old }
    {
        if self.rest.starts_with(word) {
            self.rest = &self.rest[word.len()..];
            return true;
        }
        false
    }

    /// The bytes behind these, if these come first.
    pub fn behind(&self, word: &[u8]) -> Option<&'a [u8]>
        ensures { MatchOption result (begins_with word.now self.now ≡ false) (λ rest.
            (begins_with word.now self.now ≡ true) × (rest.now ≡ behind word.now self.now)) }
    {
        if self.rest.starts_with(word) {
            return Some(&self.rest[word.len()..]);
        }
        None
    }

    /// Takes so many bytes, or all where there are fewer.
    pub fn skip(&mut self, count: usize)
        ensures { self.new ≡ drop count self.old }
    {
        self.rest = &self.rest[count.min(self.rest.len())..];
    }

    /// Takes these bytes, which are to come first.
    pub fn word(&mut self, word: &[u8]) -> Result<(), Stop>
        ensures { Steps result self.new (word_at word.now self.old) }
    {
        if self.takes(word) {
            Ok(())
        } else {
            Err(Stop::Misfit)
        }
    }

    /// Takes the lower-case letters, digits and `_` at the front.
    pub fn token(&mut self) -> &'a [u8]
        ensures token { result.now ≡ take (further self.old) self.old }
        ensures rest { self.new ≡ drop (further self.old) self.old }
    {
        let (token, rest) = self.rest.split_at(token_size(self.rest));
        self.rest = rest;
        token
    }
}

/// Reads a number below 2^64.
pub fn read_number(line: &mut Line) -> Result<u64, Stop>
    ensures { Reads result line.new (token_at number line.old) }
{
    match number_of(line.token()) {
        Some(number) => Ok(number),
        None => Err(Stop::Misfit),
    }
}

/// Reads a number in a range.
pub fn read_ranged(least: u64, most: u64, line: &mut Line) -> Result<u64, Stop>
    ensures read { Reads result line.new (token_at (ranged least most) line.old) }
    ensures low { IfOk result (λ n. least ≤ n) }
    ensures high { IfOk result (λ n. n ≤ most) }
{
    match number_of(line.token()) {
        Some(number) => {
            if least <= number && number <= most {
                Ok(number)
            } else {
                Err(Stop::Misfit)
            }
        }
        None => Err(Stop::Misfit),
    }
}
