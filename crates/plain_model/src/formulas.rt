//! The values of formulas and guards over what was shown.

ghost use Rattle.std.specs.Prelude.{◌≡◌, slice_index};
ghost use Rattle.rss_model.specs.Formula.{term_value as value_of_term, formula_value as value_of_formula, guard_value as value_of_guard};
ghost use Rattle.rss_model.specs.Operation.{values_of, guard_holds as holds};

use pipeline_lang::Term;
use rss_model::{Formula, Guard, Op, Shown};

/// The value of a formula over what was shown.
pub fn formula_value(formula: &Formula, shown: &[Shown]) -> u64
    ensures { result ≡ value_of_formula formula.now (values_of shown.now) }
{
    match formula {
        Formula::One(a) => term_value(a, shown),
        Formula::Plus(a, b) => term_value(a, shown).wrapping_add(term_value(b, shown)),
        Formula::Minus(a, b) => term_value(a, shown).wrapping_sub(term_value(b, shown)),
    }
}

/// Whether the guard of an operation, if it has one, holds of what was shown.
pub fn guard_holds(op: &Op, shown: &[Shown]) -> bool
    ensures { result ≡ holds op.now (values_of shown.now) }
{
    match op {
        Op::Txn(_, Some(guard), _) => guard_value(guard, shown),
        Op::Txn(_, None, _) | Op::Read(_) | Op::Write(_, _) | Op::Snap(_) => true,
    }
}

// The value of a number, or of a read.
fn term_value(term: &Term<u8>, shown: &[Shown]) -> u64
    ensures { result ≡ value_of_term term.now (values_of shown.now) }
{
    match term {
        Term::Number(n) => *n,
        Term::Variable(position) => value_at(shown, *position as usize),
    }
}

// The value shown at a position, past the end 0.
fn value_at(shown: &[Shown], position: usize) -> u64
    ensures { result ≡ slice_index (values_of shown.now) position }
{
    match shown.get(position) {
        Some(one) => one.value,
        None => 0,
    }
}

// Whether a comparison holds.
fn guard_value(guard: &Guard, shown: &[Shown]) -> bool
    ensures { result ≡ value_of_guard guard.now (values_of shown.now) }
{
    match guard {
        Guard::Equal(a, b) => formula_value(a, shown) == formula_value(b, shown),
        Guard::Less(a, b) => formula_value(a, shown) < formula_value(b, shown),
    }
}
