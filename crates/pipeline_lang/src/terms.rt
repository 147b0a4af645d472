//! The reading of terms, expressions and comparisons.

ghost use Rattle.std.specs.Prelude.{◌≡◌, ◌+◌, ◌-◌, ◌*◌, ◌^◌, cond, nat_lt, Some, None};
ghost use Rattle.pipeline_lang.specs.Reading.{Reads, token_at};
ghost use Rattle.pipeline_lang.specs.Terms.{is_digit, digits, number, name, own, term, number_at, name_at, own_at, term_at, sum_at, expr_at, comparison_at, compare_at};

use crate::script::{Compare, Expr, Term};
use crate::stop::Stop;
use crate::tokens::Line;
use rss_names::Name;

/// The value of a decimal digit.
fn digit_of(byte: u8) -> Option<u64>
    ensures same { result ≡ cond (is_digit byte) (Some (byte - 48)) None }
{
    if byte.is_ascii_digit() {
        Some((byte - b'0') as u64)
    } else {
        None
    }
}

/// The number below 2^64 that a number goes on to by one more digit.
fn longer(number: u64, digit: u64) -> Option<u64>
    ensures { result ≡ cond (nat_lt (10 * number + digit) (2 ^ 64)) (Some (10 * number + digit)) None }
{
    number.checked_mul(10)?.checked_add(digit)
}

/// The number that a number goes on to by these digits.
#[tactic(auto, unfolding(crate::specs::Terms::digits))]
fn digits_of(first: u64, bytes: &[u8]) -> Option<u64>
    ensures { result ≡ digits first bytes.now }
{
    let mut number = first;
    for byte in bytes {
        let digit = digit_of(*byte)?;
        number = longer(number, digit)?;
    }
    Some(number)
}

/// The number that a word is: decimal, below 2^64, without leading zeros.
#[tactic(auto, unfolding(crate::specs::Terms::number))]
fn number_of(word: &[u8]) -> Option<u64>
    ensures { result ≡ number word.now }
{
    let (first, rest) = word.split_first()?;
    let digit = digit_of(*first)?;
    if digit > 0 {
        digits_of(digit, rest)
    } else if rest.is_empty() {
        Some(0)
    } else {
        None
    }
}

/// The variable that a word is, where the variable is set.
fn own_of(word: &[u8]) -> Option<Name>
    ensures { result ≡ own word.now }
{
    if word == b"status".as_slice() {
        return None;
    }
    name_of(word)
}

/// The name that a word is.
fn name_of(word: &[u8]) -> Option<Name>
    ensures { result ≡ name word.now }
{
    Name::read(word).ok()
}

/// The term that a word is.
fn term_of(word: &[u8]) -> Option<Term<Name>>
    ensures { result ≡ term word.now }
{
    match name_of(word) {
        Some(name) => Some(Term::Variable(name)),
        None => match number_of(word) {
            Some(number) => Some(Term::Number(number)),
            None => None,
        },
    }
}

/// Reads a name.
pub fn read_name(line: &mut Line) -> Result<Name, Stop>
    ensures { Reads result line.new (name_at line.old) }
{
    match line.token() {
        Some((word, left)) => match name_of(word) {
            Some(name) => Ok(name),
            None => Err(Stop::Misfit(left)),
        },
        None => Err(Stop::Misfit(0)),
    }
}

/// Reads a variable that is set.
pub fn read_own(line: &mut Line) -> Result<Name, Stop>
    ensures { Reads result line.new (own_at line.old) }
{
    match line.token() {
        Some((word, left)) => match own_of(word) {
            Some(name) => Ok(name),
            None => Err(Stop::Misfit(left)),
        },
        None => Err(Stop::Misfit(0)),
    }
}

/// Reads a number.
pub fn read_number(line: &mut Line) -> Result<u64, Stop>
    ensures { Reads result line.new (number_at line.old) }
{
    match line.token() {
        Some((word, left)) => match number_of(word) {
            Some(number) => Ok(number),
            None => Err(Stop::Misfit(left)),
        },
        None => Err(Stop::Misfit(0)),
    }
}

/// Reads a term.
fn read_term(line: &mut Line) -> Result<Term<Name>, Stop>
    ensures { Reads result line.new (term_at line.old) }
{
    match line.token() {
        Some((word, left)) => match term_of(word) {
            Some(term) => Ok(term),
            None => Err(Stop::Misfit(left)),
        },
        None => Err(Stop::Misfit(0)),
    }
}

/// Reads what goes on behind a term.
#[tactic(auto, unfolding(crate::specs::Terms::sum_at))]
fn read_sum(first: Term<Name>, line: &mut Line) -> Result<Expr<Name>, Stop>
    ensures { Reads result line.new (sum_at first line.old) }
{
    if line.takes(b"+") {
        let second = read_term(line)?;
        return Ok(Expr::Plus(first, second));
    }
    if line.takes(b"-") {
        let second = read_term(line)?;
        return Ok(Expr::Minus(first, second));
    }
    Ok(Expr::One(first))
}

/// Reads an expression.
#[tactic(auto, unfolding(crate::specs::Terms::expr_at))]
pub fn read_expr(line: &mut Line) -> Result<Expr<Name>, Stop>
    ensures { Reads result line.new (expr_at line.old) }
{
    let first = read_term(line)?;
    read_sum(first, line)
}

/// Reads what goes on behind the first expression of a comparison.
#[tactic(auto, unfolding(crate::specs::Terms::comparison_at))]
fn read_comparison(left: Expr<Name>, line: &mut Line) -> Result<Compare<Name>, Stop>
    ensures { Reads result line.new (comparison_at left line.old) }
{
    if line.takes(b"=") {
        let right = read_expr(line)?;
        return Ok(Compare::Equal(left, right));
    }
    line.word(b"<")?;
    let right = read_expr(line)?;
    Ok(Compare::Less(left, right))
}

/// Reads a comparison.
#[tactic(auto, unfolding(crate::specs::Terms::compare_at))]
pub fn read_compare(line: &mut Line) -> Result<Compare<Name>, Stop>
    ensures { Reads result line.new (compare_at line.old) }
{
    match read_expr(line) {
        Ok(left) => read_comparison(left, line),
        Err(stop) => Err(stop),
    }
}
