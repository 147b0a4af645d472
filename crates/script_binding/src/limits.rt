//! Numbers and lengths that pass their limits.

ghost use Rattle.std.specs.Prelude.{◌≡◌, ◌<◌, ◌*◌, ◌≤◌, length, Some, None, IfNone};
ghost use Rattle.script_binding.specs.Limits.{over_count as over_count_of, over_depth as over_depth_of, over_turns, over_pairs as over_pairs_of, over_writes as over_writes_of, over_txn as over_txn_of, over_list as over_list_of, over_size as over_size_of, HasFew};
ghost use Rattle.script_binding.specs.Mentions.{behind_writes, next_write};

use crate::environment::Environment;
use crate::mention::{RawStatement, first_write, width};
use pipeline_lang::{Compare, Expr, Statement};
use rss_names::{MOST_KEYS_OF_A_CALL, Name};

/// The most statements of a script.
const MOST_STATEMENTS: u64 = 256;

/// The most blocks within one another.
const MOST_BLOCKS: u64 = 4;

/// The most turns of a `repeat`.
const MOST_TURNS: u64 = 1000;

// The token of the 257th statement.
fn over_count(statements: u64) -> Option<u64>
    ensures { result ≡ over_count_of statements }
{
    if statements >= MOST_STATEMENTS {
        Some(0)
    } else {
        None
    }
}

// The token of a block within four others.
fn over_depth(depth: u64, statement: &RawStatement) -> Option<u64>
    ensures { result ≡ over_depth_of depth statement.now }
{
    match statement {
        Statement::Repeat(_) | Statement::When(_) => {
            if depth >= MOST_BLOCKS { Some(0) } else { None }
        }
        _ => None,
    }
}

// The token of a repeat count that is out of range.
fn over_repeat(statement: &RawStatement) -> Option<u64>
    ensures { result ≡ over_turns statement.now }
{
    match statement {
        Statement::Repeat(turns) => {
            if *turns == 0 || *turns > MOST_TURNS {
                Some(1)
            } else {
                None
            }
        }
        _ => None,
    }
}

// The token of the ninth pair.
fn over_pairs(pairs: &[(Name, Name)]) -> Option<u64>
    ensures same { result ≡ over_pairs_of pairs.now }
    ensures few { IfNone result (length pairs.now ≤ 8) }
{
    if pairs.len() > MOST_KEYS_OF_A_CALL {
        Some(1 + 3 * MOST_KEYS_OF_A_CALL as u64)
    } else {
        None
    }
}

// The token behind a list of writes that begins at a token.
fn behind_writes(first: u64, writes: &[(Name, Expr<Name>)]) -> u64
    requires few { length writes.now ≤ 8 }
    requires low { first ≤ 33 }
    ensures { result ≡ behind_writes first writes.now }
{
    let mut at = first;
    for write in writes {
        at += 3 + width(&write.1);
    }
    at
}

// The token of the ninth write.
fn over_writes(first: u64, writes: &[(Name, Expr<Name>)]) -> Option<u64>
    requires { first ≤ 33 }
    ensures same { result ≡ over_writes_of first writes.now }
    ensures few { IfNone result (length writes.now ≤ 8) }
{
    if writes.len() > MOST_KEYS_OF_A_CALL {
        Some(behind_writes(first, &writes[..MOST_KEYS_OF_A_CALL]))
    } else {
        None
    }
}

// The token of the ninth pair or write of a `txn`.
fn over_txn(
    pairs: &[(Name, Name)],
    guard: &Option<Compare<Name>>,
    writes: &[(Name, Expr<Name>)],
) -> Option<u64>
    ensures same { result ≡ over_txn_of pairs.now guard.now writes.now }
    ensures few { IfNone result ((length pairs.now ≤ 8) × (length writes.now ≤ 8)) }
{
    match over_pairs(pairs) {
        Some(token) => Some(token),
        None => over_writes(first_write(pairs, guard), writes),
    }
}

// The token of the ninth member of a list.
fn over_list(statement: &RawStatement) -> Option<u64>
    ensures same { result ≡ over_list_of statement.now }
    ensures few { IfNone result (HasFew statement.now) }
{
    match statement {
        Statement::Snap(pairs) => over_pairs(pairs.as_slice()),
        Statement::Txn(pairs, guard, writes) => {
            over_txn(pairs.as_slice(), guard, writes.as_slice())
        }
        _ => None,
    }
}

/// The token of what passes a limit by itself, the number of variables apart.
pub fn over_size(environment: &Environment, statement: &RawStatement) -> Option<u64>
    ensures same { result ≡ over_size_of environment.now statement.now }
    ensures few { IfNone result (HasFew statement.now) }
    ensures room { IfNone result (environment.now.statements < 256) }
{
    if let Some(token) = over_count(environment.statements) {
        return Some(token);
    }
    if let Some(token) = over_depth(environment.depth, statement) {
        return Some(token);
    }
    if let Some(token) = over_repeat(statement) {
        return Some(token);
    }
    over_list(statement)
}
