//! The operation of a statement that makes a call.

ghost use Rattle.std.specs.Prelude.{◌≡◌, ◌≤◌, length, map, option_map, Some, IfOk};
ghost use Rattle.rss_model.specs.CallStatement.{op_of_statement, bound_formula as formula_over, bound_guard as guard_over};
ghost use Rattle.pipeline_lang.specs.declared.script.Statement.TheVariants as statements;
ghost use Rattle.pipeline_stage.specs.Statements.{HasFewReads};

use crate::bound::{bound_formula, bound_guard};
use crate::script::NumberedStatement;
use pipeline_lang::{Compare, Expr, Statement};
use rss_model::{Formula, Guard, Op, value_of};
use rss_names::{Key, Seq};
use std::alloc::{AllocError, Global};

/// The operation of a statement that makes a call, where the script's variables have these values.
/// None of a statement that makes no call. An `Err` is want of memory.
pub fn op_of(
    alloc: Global,
    statement: &NumberedStatement,
    variables: &[u64],
) -> Result<Option<Op>, AllocError>
    requires few { HasFewReads statement.now }
    ensures { IfOk result (λ op. op ≡ op_of_statement statement.now variables.now) }
{
    match statement {
        Statement::Read(_, key) => Ok(Some(Op::Read(*key))),
        Statement::Write(key, value) => Ok(Some(Op::Write(*key, value_of(value, variables)))),
        Statement::Snap(pairs) => Ok(Some(Op::Snap(keys_of(alloc, pairs.as_slice())?))),
        Statement::Txn(pairs, guard, writes) => {
            let writes = writes.as_slice();
            Ok(Some(txn_of(alloc, pairs.as_slice(), guard, writes, variables)?))
        }
        _ => Ok(None),
    }
}

// The operation of a read-write transaction.
fn txn_of(
    alloc: Global,
    pairs: &[(u8, Key)],
    guard: &Option<Compare<u8>>,
    writes: &[(Key, Expr<u8>)],
    variables: &[u64],
) -> Result<Op, AllocError>
    requires few { length pairs.now ≤ 8 }
    ensures { IfOk result (λ op. Some op ≡ op_of_statement (statements.Txn pairs.now guard.now writes.now) variables.now) }
{
    let keys = keys_of(alloc, pairs)?;
    let writes = writes_of(alloc, pairs, variables, writes)?;
    Ok(Op::Txn(keys, guard_of(pairs, variables, guard), writes))
}

// The keys that a call reads.
fn keys_of(alloc: Global, pairs: &[(u8, Key)]) -> Result<Seq<Key>, AllocError>
    ensures { IfOk result (λ keys. keys ≡ map (λ pair. pair.1) pairs.now) }
{
    let mut keys = Vec::new(alloc);
    for pair in pairs {
        keys.push(pair.1)?;
    }
    Ok(Seq::from_vec(keys))
}

// The guard of a transaction over its own reads, if it has one.
fn guard_of(pairs: &[(u8, Key)], variables: &[u64], guard: &Option<Compare<u8>>) -> Option<Guard>
    requires few { length pairs.now ≤ 8 }
    ensures { result ≡ option_map (guard_over pairs.now variables.now) guard.now }
{
    match guard {
        Some(guard) => Some(bound_guard(pairs, variables, guard)),
        None => None,
    }
}

// What a transaction writes, over its own reads.
fn writes_of(
    alloc: Global,
    pairs: &[(u8, Key)],
    variables: &[u64],
    writes: &[(Key, Expr<u8>)],
) -> Result<Seq<(Key, Formula)>, AllocError>
    requires few { length pairs.now ≤ 8 }
    ensures { IfOk result (λ made. made ≡ map (λ write. (write.0, formula_over pairs.now variables.now write.1)) writes.now) }
{
    let mut made = Vec::new(alloc);
    for write in writes {
        made.push((write.0, bound_formula(pairs, variables, &write.1)))?;
    }
    Ok(Seq::from_vec(made))
}
