//! Whether a statement makes this operation.

ghost use Rattle.std.specs.Prelude.{◌≡◌, option_map};
ghost use Rattle.rss_model.specs.CallStatement.{op_of_statement, bound_guard};
ghost use Rattle.script_laws.specs.Entries.{is_op};
ghost use Rattle.script_laws.specs.SameOps.{same_op, same_keys, same_guard, same_writes};
ghost use Rattle.rss_model.specs.declared.op.Op.TheVariants as op;
ghost use Rattle.plain_walk.specs.Operations.{keys_of, bound_writes};

use crate::bound::{is_comparison, is_expression};
use crate::script::NumberedStatement;
use pipeline_lang::{Expr, Statement};
use rss_model::{Formula, Guard, Op, value_of};
use rss_names::{Key, is_same_key};

// Whether an operation reads this register.
fn is_read(key: Key, other: &Op) -> bool
    ensures { result ≡ same_op (op.Read key) other.now }
{
    match other {
        Op::Read(read) => is_same_key(key, *read),
        Op::Write(_, _) | Op::Snap(_) | Op::Txn(_, _, _) => false,
    }
}

// Whether an operation writes this value to this register.
fn is_write(key: Key, value: u64, other: &Op) -> bool
    ensures { result ≡ same_op (op.Write key value) other.now }
{
    match other {
        Op::Write(written, number) => is_same_key(key, *written) && value == *number,
        Op::Read(_) | Op::Snap(_) | Op::Txn(_, _, _) => false,
    }
}

// Whether these are the keys of the pairs.
fn are_keys(pairs: &[(u8, Key)], keys: &[Key]) -> bool
    ensures { result ≡ same_keys (keys_of pairs.now) keys.now }
{
    if pairs.len() != keys.len() {
        return false;
    }
    for (place, pair) in pairs.iter().enumerate() {
        if !is_same_key(pair.1, keys[place]) {
            return false;
        }
    }
    true
}

// Whether an operation reads the keys of these pairs in a read-only transaction.
fn is_snap(pairs: &[(u8, Key)], other: &Op) -> bool
    ensures { result ≡ same_op (op.Snap (keys_of pairs.now)) other.now }
{
    match other {
        Op::Snap(keys) => are_keys(pairs, keys.as_slice()),
        Op::Read(_) | Op::Write(_, _) | Op::Txn(_, _, _) => false,
    }
}

// Whether a guard of the script means this one.
fn is_guard(
    pairs: &[(u8, Key)],
    variables: &[u64],
    guard: &Option<Guard>,
    other: &Option<Guard>,
) -> bool
    ensures { result ≡
        same_guard (option_map (bound_guard pairs.now variables.now) guard.now) other.now }
{
    match guard {
        Some(test) => match other {
            Some(other) => is_comparison(pairs, variables, test, other),
            None => false,
        },
        None => other.is_none(),
    }
}

// Whether the writes of the script mean these.
fn are_writes(
    pairs: &[(u8, Key)],
    variables: &[u64],
    writes: &[(Key, Expr<u8>)],
    others: &[(Key, Formula)],
) -> bool
    ensures { result ≡ same_writes (bound_writes pairs.now variables.now writes.now) others.now }
{
    if writes.len() != others.len() {
        return false;
    }
    for (place, write) in writes.iter().enumerate() {
        let other = &others[place];
        if !is_same_key(write.0, other.0) || !is_expression(pairs, variables, &write.1, &other.1) {
            return false;
        }
    }
    true
}

// Whether an operation is what these parts of a read-write transaction mean.
fn is_txn(
    pairs: &[(u8, Key)],
    variables: &[u64],
    guard: &Option<Guard>,
    writes: &[(Key, Expr<u8>)],
    other: &Op,
) -> bool
    ensures { result ≡ same_op (op.Txn (keys_of pairs.now)
        (option_map (bound_guard pairs.now variables.now) guard.now)
        (bound_writes pairs.now variables.now writes.now)) other.now }
{
    match other {
        Op::Txn(keys, test, others) => {
            are_keys(pairs, keys.as_slice())
                && is_guard(pairs, variables, guard, test)
                && are_writes(pairs, variables, writes, others.as_slice())
        }
        Op::Read(_) | Op::Write(_, _) | Op::Snap(_) => false,
    }
}

/// Whether a statement makes this operation, where the variables have these values.
pub(crate) fn makes(statement: &NumberedStatement, variables: &[u64], other: &Op) -> bool
    ensures { result ≡ is_op (op_of_statement statement.now variables.now) other.now }
{
    match statement {
        Statement::Read(_, key) => is_read(*key, other),
        Statement::Write(key, value) => is_write(*key, value_of(value, variables), other),
        Statement::Snap(pairs) => is_snap(pairs.as_slice(), other),
        Statement::Txn(pairs, guard, writes) => {
            is_txn(pairs.as_slice(), variables, guard, writes.as_slice(), other)
        }
        _ => false,
    }
}
