//! The values of expressions and comparisons, over the values of variables or of what was read.

ghost use Rattle.std.specs.Prelude.{◌≡◌, slice_index};
ghost use Rattle.rss_model.specs.Formula.{term_value as value_of_term, formula_value, guard_value};

use crate::op::{Formula, Guard};
use pipeline_lang::{Compare, Expr, Term};

/// The value at a position, past the end 0.
pub fn value_at(values: &[u64], position: usize) -> u64
    ensures { result ≡ slice_index values.now position }
{
    match values.get(position) {
        Some(value) => *value,
        None => 0,
    }
}

// The value of a number, or at a position.
fn term_value(term: &Term<u8>, values: &[u64]) -> u64
    ensures { result ≡ value_of_term term.now values.now }
{
    match term {
        Term::Number(number) => *number,
        Term::Variable(position) => value_at(values, *position as usize),
    }
}

/// The value of an expression; sums and differences wrap at 2^64.
pub fn value_of(expression: &Formula, values: &[u64]) -> u64
    ensures { result ≡ formula_value expression.now values.now }
{
    match expression {
        Expr::One(a) => term_value(a, values),
        Expr::Plus(a, b) => term_value(a, values).wrapping_add(term_value(b, values)),
        Expr::Minus(a, b) => term_value(a, values).wrapping_sub(term_value(b, values)),
    }
}

/// Whether a comparison holds.
pub fn holds(test: &Guard, values: &[u64]) -> bool
    ensures { result ≡ guard_value test.now values.now }
{
    match test {
        Compare::Equal(a, b) => value_of(a, values) == value_of(b, values),
        Compare::Less(a, b) => value_of(a, values) < value_of(b, values),
    }
}
