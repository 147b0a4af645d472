//! The terms of a transaction over its own reads, where the script's variables have their values.

ghost use Rattle.std.specs.Prelude.{◌≡◌, ◌==◌, position};
ghost use Rattle.rss_model.specs.Formula.{term_value, formula_value, guard_value};
ghost use Rattle.rss_model.specs.Operation.{values_of};
ghost use Rattle.rss_model.specs.CallStatement.{bound_term, bound_formula, bound_guard};
ghost use Rattle.script_laws.specs.SameOps.{same_term, same_expr, same_compare};
ghost use Rattle.pipeline_lang.specs.declared.script.Term.TheVariants as terms;
ghost use Rattle.pipeline_lang.specs.declared.script.Expr.TheVariants as expressions;

use pipeline_lang::{Compare, Expr, Term};
use rss_model::{Shown, value_at};
use rss_names::Key;

// Where the transaction reads a variable itself, the position there.
fn position_of(pairs: &[(u8, Key)], variable: u8) -> Option<usize>
    ensures { result ≡ position (λ pair. pair.0 == variable) pairs.now }
{
    pairs.iter().position(|pair| pair.0 == variable)
}

// Whether a term is this number.
fn is_number(term: &Term<u8>, number: u64) -> bool
    ensures { result ≡ same_term (terms.Number number) term.now }
{
    match term {
        Term::Number(n) => number == *n,
        Term::Variable(_) => false,
    }
}

// Whether a term is the read at this position.
fn is_variable(term: &Term<u8>, position: usize) -> bool
    ensures { result ≡ same_term (terms.Variable position) term.now }
{
    match term {
        Term::Number(_) => false,
        Term::Variable(v) => position == *v as usize,
    }
}

// Whether a term of the script means this term of an operation.
fn is_term(pairs: &[(u8, Key)], variables: &[u64], term: &Term<u8>, other: &Term<u8>) -> bool
    ensures { result ≡ same_term (bound_term pairs.now variables.now term.now) other.now }
{
    match term {
        Term::Number(n) => is_number(other, *n),
        Term::Variable(v) => match position_of(pairs, *v) {
            Some(position) => is_variable(other, position),
            None => is_number(other, value_at(variables, *v as usize)),
        },
    }
}

// Whether an operation's expression is a term alone that this one means.
fn is_one(pairs: &[(u8, Key)], variables: &[u64], a: &Term<u8>, other: &Expr<u8>) -> bool
    ensures { result ≡
        same_expr (bound_formula pairs.now variables.now (expressions.One a.now)) other.now }
{
    match other {
        Expr::One(c) => is_term(pairs, variables, a, c),
        Expr::Plus(_, _) | Expr::Minus(_, _) => false,
    }
}

// Whether an operation's expression is a sum of terms that these mean.
fn is_sum(
    pairs: &[(u8, Key)],
    variables: &[u64],
    a: &Term<u8>,
    b: &Term<u8>,
    other: &Expr<u8>,
) -> bool
    ensures { result ≡
        same_expr (bound_formula pairs.now variables.now (expressions.Plus a.now b.now)) other.now }
{
    match other {
        Expr::Plus(c, d) => is_term(pairs, variables, a, c) && is_term(pairs, variables, b, d),
        Expr::One(_) | Expr::Minus(_, _) => false,
    }
}

// Whether an operation's expression is a difference of terms that these mean.
fn is_difference(
    pairs: &[(u8, Key)],
    variables: &[u64],
    a: &Term<u8>,
    b: &Term<u8>,
    other: &Expr<u8>,
) -> bool
    ensures { result ≡
        same_expr (bound_formula pairs.now variables.now (expressions.Minus a.now b.now)) other.now }
{
    match other {
        Expr::Minus(c, d) => is_term(pairs, variables, a, c) && is_term(pairs, variables, b, d),
        Expr::One(_) | Expr::Plus(_, _) => false,
    }
}

/// Whether an expression of the script means this one of an operation.
pub(crate) fn is_expression(
    pairs: &[(u8, Key)],
    variables: &[u64],
    expression: &Expr<u8>,
    other: &Expr<u8>,
) -> bool
    ensures { result ≡
        same_expr (bound_formula pairs.now variables.now expression.now) other.now }
{
    match expression {
        Expr::One(a) => is_one(pairs, variables, a, other),
        Expr::Plus(a, b) => is_sum(pairs, variables, a, b, other),
        Expr::Minus(a, b) => is_difference(pairs, variables, a, b, other),
    }
}

/// Whether a comparison of the script means this one of an operation.
pub(crate) fn is_comparison(
    pairs: &[(u8, Key)],
    variables: &[u64],
    comparison: &Compare<u8>,
    other: &Compare<u8>,
) -> bool
    ensures { result ≡
        same_compare (bound_guard pairs.now variables.now comparison.now) other.now }
{
    match comparison {
        Compare::Equal(a, b) => match other {
            Compare::Equal(c, d) => {
                is_expression(pairs, variables, a, c) && is_expression(pairs, variables, b, d)
            }
            Compare::Less(_, _) => false,
        },
        Compare::Less(a, b) => match other {
            Compare::Less(c, d) => {
                is_expression(pairs, variables, a, c) && is_expression(pairs, variables, b, d)
            }
            Compare::Equal(_, _) => false,
        },
    }
}

// The value that was shown at a position, past the end 0.
fn shown_at(shown: &[Shown], position: usize) -> u64
    ensures { result ≡ term_value (terms.Variable position) (values_of shown.now) }
{
    match shown.get(position) {
        Some(one) => one.value,
        None => 0,
    }
}

// The value of a term over what the transaction was shown.
fn value_of_term(pairs: &[(u8, Key)], variables: &[u64], term: &Term<u8>, shown: &[Shown]) -> u64
    ensures { result ≡
        term_value (bound_term pairs.now variables.now term.now) (values_of shown.now) }
{
    match term {
        Term::Number(n) => *n,
        Term::Variable(v) => match position_of(pairs, *v) {
            Some(position) => shown_at(shown, position),
            None => value_at(variables, *v as usize),
        },
    }
}

// The value of an expression over what the transaction was shown.
fn value_of(pairs: &[(u8, Key)], variables: &[u64], expression: &Expr<u8>, shown: &[Shown]) -> u64
    ensures { result ≡
        formula_value (bound_formula pairs.now variables.now expression.now) (values_of shown.now) }
{
    match expression {
        Expr::One(a) => value_of_term(pairs, variables, a, shown),
        Expr::Plus(a, b) => {
            let first = value_of_term(pairs, variables, a, shown);
            first.wrapping_add(value_of_term(pairs, variables, b, shown))
        }
        Expr::Minus(a, b) => {
            let first = value_of_term(pairs, variables, a, shown);
            first.wrapping_sub(value_of_term(pairs, variables, b, shown))
        }
    }
}

/// Whether a guard holds of what the transaction was shown.
pub(crate) fn guard_holds(
    pairs: &[(u8, Key)],
    variables: &[u64],
    guard: &Compare<u8>,
    shown: &[Shown],
) -> bool
    ensures { result ≡
        guard_value (bound_guard pairs.now variables.now guard.now) (values_of shown.now) }
{
    match guard {
        Compare::Equal(a, b) => {
            value_of(pairs, variables, a, shown) == value_of(pairs, variables, b, shown)
        }
        Compare::Less(a, b) => {
            value_of(pairs, variables, a, shown) < value_of(pairs, variables, b, shown)
        }
    }
}
