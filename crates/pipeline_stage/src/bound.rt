//! The terms of a transaction over its own reads, where the script's variables have their values.

ghost use Rattle.std.specs.Prelude.{◌≡◌, ◌==◌, ◌≤◌, ◌<◌, length, position, IfSome};
ghost use Rattle.rss_model.specs.Formula.{term_value, formula_value, guard_value};
ghost use Rattle.rss_model.specs.Operation.{values_of};
ghost use Rattle.rss_model.specs.CallStatement.{bound_term as term_over, bound_formula as formula_over, bound_guard as guard_over};
ghost use Rattle.pipeline_lang.specs.declared.script.Term.TheVariants as terms;

use pipeline_lang::{Compare, Expr, Term};
use rss_model::{Formula, Guard, Shown, value_at};
use rss_names::Key;

// Where the transaction reads a variable itself, the position there.
fn position_of(pairs: &[(u8, Key)], variable: u8) -> Option<usize>
    ensures same { result ≡ position (λ pair. pair.0 == variable) pairs.now }
    ensures within { IfSome result (λ place. place < length pairs.now) }
{
    pairs.iter().position(|pair| pair.0 == variable)
}

// A term of the script over the transaction's own reads.
fn bound_term(pairs: &[(u8, Key)], variables: &[u64], term: &Term<u8>) -> Term<u8>
    requires few { length pairs.now ≤ 8 }
    ensures { result ≡ term_over pairs.now variables.now term.now }
{
    match term {
        Term::Number(n) => Term::Number(*n),
        Term::Variable(v) => match position_of(pairs, *v) {
            Some(place) => Term::Variable(place as u8),
            None => Term::Number(value_at(variables, *v as usize)),
        },
    }
}

/// An expression of the script over the transaction's own reads, term by term.
pub(crate) fn bound_formula(
    pairs: &[(u8, Key)],
    variables: &[u64],
    expression: &Expr<u8>,
) -> Formula
    requires few { length pairs.now ≤ 8 }
    ensures { result ≡ formula_over pairs.now variables.now expression.now }
{
    match expression {
        Expr::One(a) => Expr::One(bound_term(pairs, variables, a)),
        Expr::Plus(a, b) => Expr::Plus(
            bound_term(pairs, variables, a),
            bound_term(pairs, variables, b),
        ),
        Expr::Minus(a, b) => Expr::Minus(
            bound_term(pairs, variables, a),
            bound_term(pairs, variables, b),
        ),
    }
}

/// A guard of the script over the transaction's own reads.
pub(crate) fn bound_guard(pairs: &[(u8, Key)], variables: &[u64], guard: &Compare<u8>) -> Guard
    requires few { length pairs.now ≤ 8 }
    ensures { result ≡ guard_over pairs.now variables.now guard.now }
{
    match guard {
        Compare::Equal(a, b) => Compare::Equal(
            bound_formula(pairs, variables, a),
            bound_formula(pairs, variables, b),
        ),
        Compare::Less(a, b) => Compare::Less(
            bound_formula(pairs, variables, a),
            bound_formula(pairs, variables, b),
        ),
    }
}

// The value that was shown at a position, past the end 0.
fn shown_at(shown: &[Shown], position: usize) -> u64
    ensures { result ≡ term_value (terms.Variable position) (values_of shown.now) }
{
    match shown.get(position) {
        Some(one) => one.value,
        None => 0,
    }
}

// The value of a term over what the transaction was shown.
fn value_of_term(pairs: &[(u8, Key)], variables: &[u64], term: &Term<u8>, shown: &[Shown]) -> u64
    ensures { result ≡ term_value (term_over pairs.now variables.now term.now) (values_of shown.now) }
{
    match term {
        Term::Number(n) => *n,
        Term::Variable(v) => match position_of(pairs, *v) {
            Some(position) => shown_at(shown, position),
            None => value_at(variables, *v as usize),
        },
    }
}

// The value of an expression over what the transaction was shown.
fn value_over(pairs: &[(u8, Key)], variables: &[u64], expression: &Expr<u8>, shown: &[Shown]) -> u64
    ensures { result ≡ formula_value (formula_over pairs.now variables.now expression.now) (values_of shown.now) }
{
    match expression {
        Expr::One(a) => value_of_term(pairs, variables, a, shown),
        Expr::Plus(a, b) => {
            let first = value_of_term(pairs, variables, a, shown);
            first.wrapping_add(value_of_term(pairs, variables, b, shown))
        }
        Expr::Minus(a, b) => {
            let first = value_of_term(pairs, variables, a, shown);
            first.wrapping_sub(value_of_term(pairs, variables, b, shown))
        }
    }
}

/// Whether a guard holds of what the transaction was shown.
pub(crate) fn guard_holds(
    pairs: &[(u8, Key)],
    variables: &[u64],
    guard: &Compare<u8>,
    shown: &[Shown],
) -> bool
    ensures { result ≡ guard_value (guard_over pairs.now variables.now guard.now) (values_of shown.now) }
{
    match guard {
        Compare::Equal(a, b) => {
            value_over(pairs, variables, a, shown) == value_over(pairs, variables, b, shown)
        }
        Compare::Less(a, b) => {
            value_over(pairs, variables, a, shown) < value_over(pairs, variables, b, shown)
        }
    }
}
