//! The names that stand in a statement, each with its token.

ghost use Rattle.std.specs.Prelude.{◌≡◌, ◌+◌, ◌*◌, ◌≤◌, ◌++◌, [], ◌∷◌, length, IfOk, OnOk};
ghost use Rattle.script_binding.specs.Limits.{HasFew};
ghost use Rattle.script_binding.specs.Mentions.{mention, width, compare_width, in_term, in_expr, in_compare, in_pairs, behind_pairs, in_guard, behind_guard, first_write, next_write, in_writes, written_keys, in_txn, mentions};

use pipeline_lang::{Compare, Expr, Statement, Term};
use rss_names::{Name, Seq};
use std::alloc::{AllocError, Global};

/// What a name stands for.
#[derive(Clone, Copy, PartialEq, Eq)]
pub enum Role {
    Variable,
    Register,
    Key,
    Stage,
    Pipe,
}

/// A name that stands in a statement: what it stands for, and its token, counted from 0 at the
/// statement's first word.
#[derive(Clone, Copy)]
pub struct Mention {
    pub role: Role,
    pub token: u64,
    pub name: Name,
}

/// A statement with names as they are written.
pub type RawStatement = Statement<Name, Name, Name, Name>;

/// How many tokens an expression has.
pub fn width(e: &Expr<Name>) -> u64
    ensures same { result ≡ width e.now }
    ensures low { 1 ≤ result }
    ensures high { result ≤ 3 }
{
    match e {
        Expr::One(_) => 1,
        Expr::Plus(_, _) => 3,
        Expr::Minus(_, _) => 3,
    }
}

// How many tokens a comparison has.
fn compare_width(c: &Compare<Name>) -> u64
    ensures same { result ≡ compare_width c.now }
    ensures high { result ≤ 7 }
{
    match c {
        Compare::Equal(a, b) => width(a) + 1 + width(b),
        Compare::Less(a, b) => width(a) + 1 + width(b),
    }
}

// The token behind the pairs of a `txn`.
fn behind_pairs(pairs: &[(Name, Name)]) -> u64
    requires { length pairs.now ≤ 8 }
    ensures same { result ≡ behind_pairs pairs.now }
    ensures high { result ≤ 24 }
{
    if pairs.is_empty() {
        1
    } else {
        3 * pairs.len() as u64
    }
}

// The token behind the guard of a `txn`.
fn behind_guard(at: u64, guard: &Option<Compare<Name>>) -> u64
    requires { at ≤ 24 }
    ensures same { result ≡ behind_guard at guard.now }
    ensures high { result ≤ 32 }
{
    match guard {
        None => at,
        Some(c) => at + 1 + compare_width(c),
    }
}

/// The token of the first key that a `txn` writes.
pub fn first_write(pairs: &[(Name, Name)], guard: &Option<Compare<Name>>) -> u64
    requires { length pairs.now ≤ 8 }
    ensures same { result ≡ first_write pairs.now guard.now }
    ensures high { result ≤ 33 }
{
    behind_guard(behind_pairs(pairs), guard) + 1
}

// Appends one name.
fn put(out: &mut Vec<Mention>, role: Role, token: u64, name: &Name) -> Result<(), AllocError>
    ensures { OnOk result (out.new.items ≡ out.old.items ++ mention role token name.now ∷ []) }
{
    match out.push(Mention {
        role,
        token,
        name: *name,
    }) {
        Ok(()) => Ok(()),
        Err(_) => Err(AllocError),
    }
}

// Appends the names in a term that stands at a token.
fn put_term(out: &mut Vec<Mention>, at: u64, term: &Term<Name>) -> Result<(), AllocError>
    ensures { OnOk result (out.new.items ≡ out.old.items ++ in_term at term.now) }
{
    match term {
        Term::Number(_) => Ok(()),
        Term::Variable(name) => put(out, Role::Variable, at, name),
    }
}

// Appends the names in an expression that begins at a token.
fn put_expr(out: &mut Vec<Mention>, at: u64, e: &Expr<Name>) -> Result<(), AllocError>
    requires { at ≤ 1000 }
    ensures { OnOk result (out.new.items ≡ out.old.items ++ in_expr at e.now) }
{
    match e {
        Expr::One(a) => put_term(out, at, a),
        Expr::Plus(a, b) => {
            put_term(out, at, a)?;
            put_term(out, at + 2, b)
        }
        Expr::Minus(a, b) => {
            put_term(out, at, a)?;
            put_term(out, at + 2, b)
        }
    }
}

// Appends the names in a comparison that begins at a token.
fn put_compare(out: &mut Vec<Mention>, at: u64, c: &Compare<Name>) -> Result<(), AllocError>
    requires { at ≤ 100 }
    ensures { OnOk result (out.new.items ≡ out.old.items ++ in_compare at c.now) }
{
    match c {
        Compare::Equal(a, b) => {
            put_expr(out, at, a)?;
            put_expr(out, at + width(a) + 1, b)
        }
        Compare::Less(a, b) => {
            put_expr(out, at, a)?;
            put_expr(out, at + width(a) + 1, b)
        }
    }
}

// Appends the names in the guard of a `txn`, whose word `when` stands at a token.
fn put_guard(
    out: &mut Vec<Mention>,
    at: u64,
    guard: &Option<Compare<Name>>,
) -> Result<(), AllocError>
    requires { at ≤ 24 }
    ensures { OnOk result (out.new.items ≡ out.old.items ++ in_guard at guard.now) }
{
    match guard {
        None => Ok(()),
        Some(c) => put_compare(out, at + 1, c),
    }
}

/// Appends the names in the pairs of a `snap` or a `txn`.
pub fn put_pairs(out: &mut Vec<Mention>, pairs: &[(Name, Name)]) -> Result<(), AllocError>
    requires { length pairs.now ≤ 8 }
    ensures { OnOk result (out.new.items ≡ out.old.items ++ in_pairs 1 pairs.now) }
{
    let mut at = 1u64;
    for pair in pairs {
        put(out, Role::Variable, at, &pair.0)?;
        put(out, Role::Key, at + 1, &pair.1)?;
        at += 3;
    }
    Ok(())
}

// Appends the names in a list of writes that begins at a token.
fn put_writes(
    out: &mut Vec<Mention>,
    first: u64,
    writes: &[(Name, Expr<Name>)],
) -> Result<(), AllocError>
    requires few { length writes.now ≤ 8 }
    requires low { first ≤ 33 }
    ensures { OnOk result (out.new.items ≡ out.old.items ++ in_writes first writes.now) }
{
    let mut at = first;
    for write in writes {
        put(out, Role::Key, at, &write.0)?;
        put_expr(out, at + 2, &write.1)?;
        at += 3 + width(&write.1);
    }
    Ok(())
}

/// Appends the keys that a list of writes that begins at a token writes.
pub fn put_written_keys(
    out: &mut Vec<Mention>,
    first: u64,
    writes: &[(Name, Expr<Name>)],
) -> Result<(), AllocError>
    requires few { length writes.now ≤ 8 }
    requires low { first ≤ 33 }
    ensures { OnOk result (out.new.items ≡ out.old.items ++ written_keys first writes.now) }
{
    let mut at = first;
    for write in writes {
        put(out, Role::Key, at, &write.0)?;
        at += 3 + width(&write.1);
    }
    Ok(())
}

// Appends the names in a `txn`.
fn put_txn(
    out: &mut Vec<Mention>,
    pairs: &[(Name, Name)],
    guard: &Option<Compare<Name>>,
    writes: &[(Name, Expr<Name>)],
) -> Result<(), AllocError>
    requires pairs { length pairs.now ≤ 8 }
    requires writes { length writes.now ≤ 8 }
    ensures { OnOk result (out.new.items ≡ out.old.items ++ in_txn pairs.now guard.now writes.now) }
{
    put_pairs(out, pairs)?;
    put_guard(out, behind_pairs(pairs), guard)?;
    put_writes(out, first_write(pairs, guard), writes)
}

// Appends the variable and the expression of a `let`.
fn put_let(out: &mut Vec<Mention>, variable: &Name, e: &Expr<Name>) -> Result<(), AllocError>
    ensures { OnOk result (out.new.items ≡
        out.old.items ++ (mention Role.Variable 1 variable.now ∷ in_expr 3 e.now)) }
{
    put(out, Role::Variable, 1, variable)?;
    put_expr(out, 3, e)
}

// Appends a name in a role, and then an expression.
fn put_with(
    out: &mut Vec<Mention>,
    role: Role,
    name: &Name,
    e: &Expr<Name>,
) -> Result<(), AllocError>
    ensures { OnOk result (out.new.items ≡
        out.old.items ++ (mention role 1 name.now ∷ in_expr 2 e.now)) }
{
    put(out, role, 1, name)?;
    put_expr(out, 2, e)
}

// Appends a variable, and then a name in a role.
fn put_into(
    out: &mut Vec<Mention>,
    variable: &Name,
    role: Role,
    name: &Name,
) -> Result<(), AllocError>
    ensures { OnOk result (out.new.items ≡
        out.old.items ++ (mention Role.Variable 1 variable.now ∷ mention role 2 name.now ∷ [])) }
{
    put(out, Role::Variable, 1, variable)?;
    put(out, role, 2, name)
}

// Appends the names in a statement.
#[tactic(auto, unfolding(crate::specs::Mentions::mentions))]
fn put_statement(out: &mut Vec<Mention>, statement: &RawStatement) -> Result<(), AllocError>
    requires { HasFew statement.now }
    ensures { OnOk result (out.new.items ≡ out.old.items ++ mentions statement.now) }
{
    match statement {
        Statement::Let(variable, e) => put_let(out, variable, e),
        Statement::Read(variable, register) => put_into(out, variable, Role::Register, register),
        Statement::Write(register, e) => put_with(out, Role::Register, register, e),
        Statement::Snap(pairs) => put_pairs(out, pairs.as_slice()),
        Statement::Txn(pairs, guard, writes) => {
            put_txn(out, pairs.as_slice(), guard, writes.as_slice())
        }
        Statement::Spawn(stage) => put(out, Role::Stage, 1, stage),
        Statement::Wait(stage) => put(out, Role::Stage, 1, stage),
        Statement::Put(pipe, e) => put_with(out, Role::Pipe, pipe, e),
        Statement::Take(variable, pipe) => put_into(out, variable, Role::Pipe, pipe),
        Statement::Close(pipe) => put(out, Role::Pipe, 1, pipe),
        Statement::When(c) => put_compare(out, 1, c),
        _ => Ok(()),
    }
}

/// The names in a statement, in the order of the text.
pub fn mentions_of(alloc: Global, statement: &RawStatement) -> Result<Vec<Mention>, AllocError>
    requires { HasFew statement.now }
    ensures { IfOk result (λ found. found.items ≡ mentions statement.now) }
{
    let mut found = Vec::new(alloc);
    put_statement(&mut found, statement)?;
    Ok(found)
}
