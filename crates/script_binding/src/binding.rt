//! Scripts with numbers in place of names.

ghost use Rattle.std.specs.Prelude.{◌≡◌, ◌≤◌, ◌<◌, ◌++◌, [], ◌∷◌, IfOk, IfErr, OnOk, Ok, None};
ghost use Rattle.script_binding.specs.Naming.{naming};
ghost use Rattle.script_binding.specs.Limits.{HasFew, over_variables};
ghost use Rattle.script_binding.specs.Mentions.{mentions};
ghost use Rattle.script_binding.specs.Environment.{noted, mentioned, start};
ghost use Rattle.script_binding.specs.Outcome.{refused, name_fault as name_fault_of, shape_fault as shape_fault_of, first_fault as first_fault_of, outcome, Advances, Tells};

use crate::environment::{BoundStatement, Environment};
use crate::fault::{BindError, Refusal, ScriptFault, ScriptFaultKind};
use crate::limits::over_size;
use crate::mention::{Mention, RawStatement, mentions_of};
use crate::name_faults::{first_double, first_foreign, first_unknown};
use crate::names::Names;
use crate::numbering::bound;
use crate::shapes::{pipe_fault, spawn_fault};
use pipeline_lang::{RawScript, Script};
use rss_names::Seq;
use std::alloc::{AllocError, Global};

// A fault of this kind, where a token shows it.
fn refused(kind: ScriptFaultKind, token: Option<u64>) -> Option<Refusal>
    ensures { result ≡ refused kind token }
{
    match token {
        Some(token) => Some(Refusal { kind, token }),
        None => None,
    }
}

// The first fault of the names in a statement.
fn name_fault(
    alloc: Global,
    names: &Names,
    statement: &RawStatement,
    mentions: &[Mention],
) -> Result<Option<Refusal>, AllocError>
    requires { HasFew statement.now }
    ensures { IfOk result (λ r. r ≡ name_fault_of (naming names.now) statement.now mentions.now) }
{
    if let Some(refusal) = refused(ScriptFaultKind::UnknownName, first_unknown(names, mentions)) {
        return Ok(Some(refusal));
    }
    if let Some(refusal) = refused(
        ScriptFaultKind::ServiceShape,
        first_foreign(names, mentions),
    ) {
        return Ok(Some(refusal));
    }
    Ok(refused(ScriptFaultKind::DoubleName, first_double(alloc, statement)?))
}

// The first fault in what a statement does with stages and pipes.
fn shape_fault(
    names: &Names,
    environment: &Environment,
    statement: &RawStatement,
) -> Option<Refusal>
    ensures { result ≡ shape_fault_of (naming names.now) environment.now statement.now }
{
    if let Some(token) = spawn_fault(names, environment, statement) {
        return refused(ScriptFaultKind::SpawnShape, Some(token));
    }
    refused(
        ScriptFaultKind::PipeShape,
        pipe_fault(names, environment, statement),
    )
}

// The fault of a statement whose lists are short, that its variables are too many.
fn variable_fault(
    environment: &mut Environment,
    mentions: &[Mention],
) -> Result<Option<Refusal>, AllocError>
    ensures over { IfOk result (λ r. r ≡ refused ScriptFaultKind.OverLimit
        (over_variables environment.old.variables mentions.now)) }
    ensures noted { result ≡ Ok None → environment.new ≡
        record environment.old { variables = noted environment.old.variables mentions.now } }
{
    let over = environment.variables.note(mentions)?;
    Ok(refused(ScriptFaultKind::OverLimit, over))
}

// Takes in the variables of a statement, and answers its first fault.
#[tactic(auto, using(crate::proofs::Passing::shape_fault_mentioned))]
fn first_fault(
    alloc: Global,
    names: &Names,
    environment: &mut Environment,
    statement: &RawStatement,
) -> Result<Option<Refusal>, AllocError>
    ensures fault { IfOk result (λ r. r ≡ first_fault_of (naming names.now) environment.old statement.now) }
    ensures mentioned { result ≡ Ok None → environment.new ≡ mentioned environment.old statement.now }
    ensures room { result ≡ Ok None → environment.old.statements < 256 }
{
    if let Some(token) = over_size(environment, statement) {
        return Ok(refused(ScriptFaultKind::OverLimit, Some(token)));
    }
    let found = mentions_of(alloc, statement)?;
    if let Some(refusal) = variable_fault(environment, &found)? {
        return Ok(Some(refusal));
    }
    if let Some(refusal) = name_fault(alloc, names, statement, &found)? {
        return Ok(Some(refusal));
    }
    Ok(shape_fault(names, environment, statement))
}

// What comes of one statement.
fn advance(
    alloc: Global,
    names: &Names,
    environment: &mut Environment,
    statement: &RawStatement,
) -> Result<Result<BoundStatement, Refusal>, AllocError>
    requires nested { environment.old.depth ≤ environment.old.statements }
    ensures advances { IfOk result (λ came.
        Advances (naming names.now) environment.old environment.new statement.now came) }
    ensures nested { IfOk result (λ came. OnOk came (environment.new.depth ≤ environment.new.statements)) }
    ensures room { IfOk result (λ came. OnOk came (environment.old.statements < 256)) }
{
    if let Some(refusal) = first_fault(alloc, names, environment, statement)? {
        return Ok(Err(refusal));
    }
    let made = bound(alloc, names, &environment.variables, statement)?;
    environment.pass(&made)?;
    Ok(Ok(made))
}

// Appends a statement.
fn push_statement(script: &mut Script, statement: BoundStatement) -> Result<(), AllocError>
    ensures { OnOk result (script.new ≡ script.old ++ statement ∷ []) }
{
    match script.push(statement) {
        Ok(()) => Ok(()),
        Err(_) => Err(AllocError),
    }
}

// Binds one statement after another behind a script and an environment that were just made.
fn bind_all(
    alloc: Global,
    names: &Names,
    environment: &mut Environment,
    script: &mut Script,
    raw: &RawScript,
) -> Result<(), BindError>
    requires start { environment.old ≡ start }
    requires empty { script.old ≡ [] }
    ensures bound { OnOk result (outcome (naming names.now) raw.now ≡ Ok script.new) }
    ensures refused { IfErr result (λ e. Tells e (outcome (naming names.now) raw.now)) }
{
    for statement in raw.as_slice() {
        let above = environment.statements;
        match advance(alloc, names, environment, statement) {
            Ok(Ok(made)) => match push_statement(script, made) {
                Ok(()) => {}
                Err(_) => return Err(BindError::OutOfMemory),
            },
            Err(_) => return Err(BindError::OutOfMemory),
            Ok(Err(refusal)) => {
                return Err(BindError::Fault(ScriptFault {
                    kind: refusal.kind,
                    statement: above + 1,
                    token: refusal.token,
                }));
            }
        }
    }
    Ok(())
}

/// The script with numbers in place of names, or its first fault: statement by statement, and within
/// a statement in the order of the kinds.
pub fn bind(alloc: Global, names: &Names, raw: &RawScript) -> Result<Script, BindError>
    ensures bound { IfOk result (λ script. outcome (naming names.now) raw.now ≡ Ok script) }
    ensures refused { IfErr result (λ e. Tells e (outcome (naming names.now) raw.now)) }
{
    let mut environment = Environment::new(alloc);
    let mut script = Seq::new(alloc);
    bind_all(alloc, names, &mut environment, &mut script, raw)?;
    Ok(script)
}
