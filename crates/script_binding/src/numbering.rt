//! A statement with numbers in place of names.

ghost use Rattle.std.specs.Prelude.{◌≡◌, ◌++◌, [], ◌∷◌, IfOk, OnOk, option_map};
ghost use Rattle.script_binding.specs.Naming.{naming};
ghost use Rattle.script_binding.specs.Numbering.{bound_register, bound_key, bound_stage, bound_pipe, bound_term, bound_expr, bound_compare, bound_pairs, bound_writes, bound};

use crate::environment::{BoundStatement, Variables};
use crate::mention::RawStatement;
use crate::names::Names;
use pipeline_lang::{Compare, Expr, Statement, Term};
use rss_names::{Key, Name, Seq, ServiceId, StageId};
use std::alloc::{AllocError, Global};

/// What stands for a key or register that is not there.
const NO_KEY: Key = Key {
    service: ServiceId::Txn(0),
    index: 0,
};

// The register of a name.
fn bound_register(names: &Names, name: &Name) -> Key
    ensures { result ≡ bound_register (naming names.now) name.now }
{
    match names.register(name) {
        Some(key) => key,
        None => NO_KEY,
    }
}

// The key of a name.
fn bound_key(names: &Names, name: &Name) -> Key
    ensures { result ≡ bound_key (naming names.now) name.now }
{
    match names.key(name) {
        Some(key) => key,
        None => NO_KEY,
    }
}

// The stage of a name.
fn bound_stage(names: &Names, name: &Name) -> StageId
    ensures { result ≡ bound_stage (naming names.now) name.now }
{
    match names.stage_named(name) {
        Some(stage) => stage,
        None => names.stage,
    }
}

// The number of the pipe of a name.
fn bound_pipe(names: &Names, name: &Name) -> u8
    ensures { result ≡ bound_pipe (naming names.now) name.now }
{
    match names.pipe_named(name) {
        Some(pipe) => pipe,
        None => 0,
    }
}

// A term with numbers.
fn bound_term(variables: &Variables, term: &Term<Name>) -> Term<u8>
    ensures { result ≡ bound_term variables.now term.now }
{
    match term {
        Term::Number(number) => Term::Number(*number),
        Term::Variable(name) => Term::Variable(variables.number(name)),
    }
}

// An expression with numbers.
fn bound_expr(variables: &Variables, e: &Expr<Name>) -> Expr<u8>
    ensures { result ≡ bound_expr variables.now e.now }
{
    match e {
        Expr::One(a) => Expr::One(bound_term(variables, a)),
        Expr::Plus(a, b) => Expr::Plus(bound_term(variables, a), bound_term(variables, b)),
        Expr::Minus(a, b) => Expr::Minus(bound_term(variables, a), bound_term(variables, b)),
    }
}

// A comparison with numbers.
fn bound_compare(variables: &Variables, c: &Compare<Name>) -> Compare<u8>
    ensures { result ≡ bound_compare variables.now c.now }
{
    match c {
        Compare::Equal(a, b) => Compare::Equal(bound_expr(variables, a), bound_expr(variables, b)),
        Compare::Less(a, b) => Compare::Less(bound_expr(variables, a), bound_expr(variables, b)),
    }
}

// A guard with numbers.
fn bound_guard(variables: &Variables, guard: &Option<Compare<Name>>) -> Option<Compare<u8>>
    ensures { result ≡ option_map (bound_compare variables.now) guard.now }
{
    match guard {
        Some(c) => Some(bound_compare(variables, c)),
        None => None,
    }
}

// Appends a pair of numbers.
fn put_pair(out: &mut Seq<(u8, Key)>, variable: u8, key: Key) -> Result<(), AllocError>
    ensures { OnOk result (out.new ≡ out.old ++ (variable, key) ∷ []) }
{
    match out.push((variable, key)) {
        Ok(()) => Ok(()),
        Err(_) => Err(AllocError),
    }
}

// Pairs with numbers.
fn bound_pairs(
    alloc: Global,
    names: &Names,
    variables: &Variables,
    pairs: &[(Name, Name)],
) -> Result<Seq<(u8, Key)>, AllocError>
    ensures { IfOk result (λ out. out ≡ bound_pairs (naming names.now) variables.now pairs.now) }
{
    let mut out = Seq::new(alloc);
    for pair in pairs {
        put_pair(
            &mut out,
            variables.number(&pair.0),
            bound_key(names, &pair.1),
        )?;
    }
    Ok(out)
}

// Appends a write.
fn put_write(out: &mut Seq<(Key, Expr<u8>)>, key: Key, value: Expr<u8>) -> Result<(), AllocError>
    ensures { OnOk result (out.new ≡ out.old ++ (key, value) ∷ []) }
{
    match out.push((key, value)) {
        Ok(()) => Ok(()),
        Err(_) => Err(AllocError),
    }
}

// Writes with numbers.
fn bound_writes(
    alloc: Global,
    names: &Names,
    variables: &Variables,
    writes: &[(Name, Expr<Name>)],
) -> Result<Seq<(Key, Expr<u8>)>, AllocError>
    ensures { IfOk result (λ out. out ≡ bound_writes (naming names.now) variables.now writes.now) }
{
    let mut out = Seq::new(alloc);
    for write in writes {
        put_write(
            &mut out,
            bound_key(names, &write.0),
            bound_expr(variables, &write.1),
        )?;
    }
    Ok(out)
}

// A `snap` with numbers.
fn bound_snap(
    alloc: Global,
    names: &Names,
    variables: &Variables,
    pairs: &[(Name, Name)],
) -> Result<BoundStatement, AllocError>
    ensures { IfOk result (λ b. b ≡ Statement.Snap (bound_pairs (naming names.now) variables.now pairs.now)) }
{
    Ok(Statement::Snap(bound_pairs(alloc, names, variables, pairs)?))
}

// A `txn` with numbers.
fn bound_txn(
    alloc: Global,
    names: &Names,
    variables: &Variables,
    pairs: &[(Name, Name)],
    guard: &Option<Compare<Name>>,
    writes: &[(Name, Expr<Name>)],
) -> Result<BoundStatement, AllocError>
    ensures { IfOk result (λ b. b ≡ Statement.Txn
        (bound_pairs (naming names.now) variables.now pairs.now)
        (option_map (bound_compare variables.now) guard.now)
        (bound_writes (naming names.now) variables.now writes.now)) }
{
    let pairs = bound_pairs(alloc, names, variables, pairs)?;
    let writes = bound_writes(alloc, names, variables, writes)?;
    Ok(Statement::Txn(pairs, bound_guard(variables, guard), writes))
}

/// A statement with numbers; `variables` are those of the script up to it.
#[tactic(auto, unfolding(crate::specs::Numbering::bound))]
pub fn bound(
    alloc: Global,
    names: &Names,
    variables: &Variables,
    statement: &RawStatement,
) -> Result<BoundStatement, AllocError>
    ensures { IfOk result (λ b. b ≡ bound (naming names.now) variables.now statement.now) }
{
    match statement {
        Statement::Let(variable, e) => Ok(Statement::Let(
            variables.number(variable),
            bound_expr(variables, e),
        )),
        Statement::Read(variable, register) => Ok(Statement::Read(
            variables.number(variable),
            bound_register(names, register),
        )),
        Statement::Write(register, e) => Ok(Statement::Write(
            bound_register(names, register),
            bound_expr(variables, e),
        )),
        Statement::Snap(pairs) => bound_snap(alloc, names, variables, pairs.as_slice()),
        Statement::Txn(pairs, guard, writes) => bound_txn(
            alloc,
            names,
            variables,
            pairs.as_slice(),
            guard,
            writes.as_slice(),
        ),
        Statement::Spawn(stage) => Ok(Statement::Spawn(bound_stage(names, stage))),
        Statement::Wait(stage) => Ok(Statement::Wait(bound_stage(names, stage))),
        Statement::Put(pipe, e) => Ok(Statement::Put(
            bound_pipe(names, pipe),
            bound_expr(variables, e),
        )),
        Statement::Take(variable, pipe) => Ok(Statement::Take(
            variables.number(variable),
            bound_pipe(names, pipe),
        )),
        Statement::Close(pipe) => Ok(Statement::Close(bound_pipe(names, pipe))),
        Statement::Fence => Ok(Statement::Fence),
        Statement::Repeat(turns) => Ok(Statement::Repeat(*turns)),
        Statement::When(c) => Ok(Statement::When(bound_compare(variables, c))),
        Statement::End => Ok(Statement::End),
        Statement::Exit => Ok(Statement::Exit),
    }
}
