//! The reading of formulas and guards.

ghost use Rattle.std.specs.Prelude.{◌≡◌};
ghost use Rattle.history_text.specs.Reading.{Reads};
ghost use Rattle.history_text.specs.Formulas.{position_at, constant_at, term_at, sum_at, formula_at, comparison_at, guard_at, begins_term as term_begins, begins_guard as guard_begins, when_at};

use crate::line::{Line, read_number, read_ranged};
use crate::stop::Stop;
use pipeline_lang::{Compare, Expr, Term};
use rss_model::{Formula, Guard};

/// Reads the position of a read, from 1 to 256.
#[tactic(auto, unfolding(crate::specs::Formulas::position_at))]
fn read_position(line: &mut Line) -> Result<Term<u8>, Stop>
    ensures { Reads result line.new (position_at line.old) }
{
    let place = read_ranged(1, 256, line)?;
    Ok(Term::Variable((place - 1) as u8))
}

/// Reads a number of a formula.
#[tactic(auto, unfolding(crate::specs::Formulas::constant_at))]
fn read_constant(line: &mut Line) -> Result<Term<u8>, Stop>
    ensures { Reads result line.new (constant_at line.old) }
{
    let number = read_number(line)?;
    Ok(Term::Number(number))
}

/// Reads a term.
#[tactic(auto, unfolding(crate::specs::Formulas::term_at))]
fn read_term(line: &mut Line) -> Result<Term<u8>, Stop>
    ensures { Reads result line.new (term_at line.old) }
{
    if line.takes(b"#") {
        return read_position(line);
    }
    read_constant(line)
}

/// Reads what goes on behind a term.
#[tactic(auto, unfolding(crate::specs::Formulas::sum_at))]
fn read_sum(first: Term<u8>, line: &mut Line) -> Result<Formula, Stop>
    ensures { Reads result line.new (sum_at first line.old) }
{
    if line.takes(b" + ") {
        let second = read_term(line)?;
        return Ok(Expr::Plus(first, second));
    }
    if line.takes(b" - ") {
        let second = read_term(line)?;
        return Ok(Expr::Minus(first, second));
    }
    Ok(Expr::One(first))
}

/// Reads a formula.
#[tactic(auto, unfolding(crate::specs::Formulas::formula_at))]
pub fn read_formula(line: &mut Line) -> Result<Formula, Stop>
    ensures { Reads result line.new (formula_at line.old) }
{
    let first = read_term(line)?;
    read_sum(first, line)
}

/// Reads what goes on behind the first formula of a comparison.
#[tactic(auto, unfolding(crate::specs::Formulas::comparison_at))]
fn read_comparison(left: Formula, line: &mut Line) -> Result<Guard, Stop>
    ensures { Reads result line.new (comparison_at left line.old) }
{
    if line.takes(b" = ") {
        let right = read_formula(line)?;
        return Ok(Compare::Equal(left, right));
    }
    line.word(b" < ")?;
    let right = read_formula(line)?;
    Ok(Compare::Less(left, right))
}

/// Reads a guard.
#[tactic(auto, unfolding(crate::specs::Formulas::guard_at))]
fn read_guard(line: &mut Line) -> Result<Guard, Stop>
    ensures { Reads result line.new (guard_at line.old) }
{
    let left = read_formula(line)?;
    read_comparison(left, line)
}

/// Whether a term comes at the front.
#[tactic(auto, unfolding(crate::specs::Formulas::begins_term))]
fn begins_term(bytes: &[u8]) -> bool
    ensures { result ≡ term_begins bytes.now }
{
    match bytes.split_first() {
        Some((byte, _)) => *byte == b'#' || byte.is_ascii_digit(),
        None => false,
    }
}

/// Whether a guard comes, and not a key with the name `when`.
#[tactic(auto, unfolding(crate::specs::Formulas::begins_guard))]
pub fn begins_guard(line: &Line) -> bool
    ensures { result ≡ guard_begins line.now }
{
    match line.behind(b" when ") {
        Some(rest) => begins_term(rest),
        None => false,
    }
}

/// Reads a guard, if there is one.
#[tactic(auto, unfolding(crate::specs::Formulas::when_at))]
pub fn read_when(line: &mut Line) -> Result<Option<Guard>, Stop>
    ensures { Reads result line.new (when_at line.old) }
{
    if begins_guard(line) {
        line.skip(6);
        let guard = read_guard(line)?;
        return Ok(Some(guard));
    }
    Ok(None)
}
