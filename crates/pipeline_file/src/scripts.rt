//! The scripts of a file.

ghost use Rattle.std.specs.Prelude.{◌≡◌, ◌≤◌, [], length, IfOk, IfErr, OnOk, Ok, IsTrue};
ghost use Rattle.pipeline_lang.specs.Scripts.{script_of};
ghost use Rattle.script_binding.specs.Naming.{naming};
ghost use Rattle.script_binding.specs.Outcome.{outcome};
ghost use Rattle.script_binding.specs.Counts.{nothing};
ghost use Rattle.pipeline_tables.specs.Faults.{Tells, IsFault};
ghost use Rattle.pipeline_file.specs.Scripts.{script_place, kind_of, syntax, bound_or, naming_of, script_said, bodies_from, sums_from, bodies_of};

use crate::declared_names::Declared;
use crate::resolve::Resolved;
use pipeline_lang::{Body, ParseError, RawScript, Script, parse, token_column};
use pipeline_tables::{FaultKind, FileError, FileKey, Place, StageTable, Table};
use rss_names::{Seq, StageId};
use script_binding::{BindError, Names, ScriptFaultKind, Tally, add_spawned, bind};
use std::alloc::Global;

/// A place in the script of a stage.
fn script_place(number: u16, statement: u64, column: u64) -> Place
    ensures { result ≡ script_place number statement column }
{
    Place {
        table: Table::Stage,
        number,
        key: FileKey::Script,
        statement,
        column,
    }
}

/// The kind of a script's fault.
fn kind_of(kind: ScriptFaultKind) -> FaultKind
    ensures { result ≡ kind_of kind }
{
    match kind {
        ScriptFaultKind::OverLimit => FaultKind::OverLimit,
        ScriptFaultKind::UnknownName => FaultKind::UnknownName,
        ScriptFaultKind::ServiceShape => FaultKind::ServiceShape,
        ScriptFaultKind::DoubleName => FaultKind::DoubleName,
        ScriptFaultKind::SpawnShape => FaultKind::SpawnShape,
        ScriptFaultKind::PipeShape => FaultKind::PipeShape,
    }
}

/// Reads the text of a script.
fn read_script(alloc: Global, number: u16, text: &[u8]) -> Result<RawScript, FileError>
    ensures { Tells result (syntax number (script_of text.now)) }
{
    match parse(alloc, text) {
        Ok(raw) => Ok(raw),
        Err(ParseError::Syntax { statement, column }) => Err(FileError::Fault(script_place(
            number, statement, column,
        ).fault(FaultKind::Syntax))),
        Err(ParseError::OutOfMemory) => Err(FileError::OutOfMemory),
    }
}

/// Binds the names of a script.
fn bind_script(
    alloc: Global,
    number: u16,
    text: &[u8],
    names: &Names,
    raw: &RawScript,
) -> Result<Script, FileError>
    ensures { Tells result (bound_or number text.now (outcome (naming names.now) raw.now)) }
{
    match bind(alloc, names, raw) {
        Ok(script) => Ok(script),
        Err(BindError::Fault(fault)) => {
            let column = token_column(text, fault.statement, fault.token);
            let place = script_place(number, fault.statement, column);
            Err(FileError::Fault(place.fault(kind_of(fault.kind))))
        }
        Err(BindError::OutOfMemory) => Err(FileError::OutOfMemory),
    }
}

/// The script of the stage of a number, where earlier scripts spawn these stages.
#[tactic(auto, unfolding(crate::specs::Scripts::script_said))]
fn script_of_stage(
    alloc: Global,
    declared: &Declared,
    resolved: &Resolved,
    number: u8,
    spawned: &Seq<StageId>,
    table: &StageTable,
) -> Result<Script, FileError>
    requires low { 1 ≤ number }
    requires high { number ≤ 16 }
    ensures { Tells result (script_said declared.now resolved.now number spawned.now table.now.script) }
{
    let stage = StageId::new(number).unwrap();
    let text = table.script.as_slice();
    let raw = read_script(alloc, number as u16, text)?;
    let names = Names {
        registers: &declared.registers,
        register_services: &declared.register_services,
        keys: &declared.keys,
        homes: &declared.homes,
        shard_services: &resolved.shard_services,
        stages: &declared.known.stages,
        pipes: &declared.pipes,
        pipe_ends: &resolved.pipe_ends,
        stage,
        spawned,
    };
    let script = bind_script(alloc, number as u16, text, &names, &raw);
    let Names {
        registers: _,
        register_services: _,
        keys: _,
        homes: _,
        shard_services: _,
        stages: _,
        pipes: _,
        pipe_ends: _,
        stage: _,
        spawned: _,
    } = names;
    script
}

/// Adds what the stages run to an empty list: stage by stage the script is read and bound, and what
/// it spawns is noted.
fn add_bodies(
    alloc: Global,
    declared: &Declared,
    resolved: &Resolved,
    stages: &[StageTable],
    bodies: &mut Seq<Body>,
    spawned: &mut Seq<StageId>,
) -> Result<(), FileError>
    requires few { length stages.now ≤ 16 }
    requires none { bodies.old ≡ [] }
    requires unspawned { spawned.old ≡ [] }
    ensures read { OnOk result (bodies_from declared.now resolved.now 1 [] stages.now ≡ Ok bodies.new) }
    ensures refused { IfErr result (λ e. IsFault e (bodies_from declared.now resolved.now 1 [] stages.now)) }
    ensures each { OnOk result (length bodies.new ≡ length stages.now) }
{
    for (index, stage) in stages.iter().enumerate() {
        let number = index as u8 + 1;
        let script = script_of_stage(alloc, declared, resolved, number, spawned, stage)?;
        add_spawned(spawned, &script)?;
        bodies.push(Body {
            script,
            earliest_end: stage.earliest_end,
        })?;
    }
    Ok(())
}

/// What the stages run.
fn bodies(
    alloc: Global,
    declared: &Declared,
    resolved: &Resolved,
    stages: &[StageTable],
) -> Result<Seq<Body>, FileError>
    requires few { length stages.now ≤ 16 }
    ensures read { Tells result (bodies_from declared.now resolved.now 1 [] stages.now) }
    ensures each { IfOk result (λ bodies. length bodies ≡ length stages.now) }
{
    let mut bodies = Seq::new(alloc);
    let mut spawned = Seq::new(alloc);
    add_bodies(alloc, declared, resolved, stages, &mut bodies, &mut spawned)?;
    Ok(bodies)
}

/// Tests that the running sums stay within the limits of a file.
#[tactic(auto, using(crate::proofs::Bodies::sums_from_drop), unfolding(crate::specs::Scripts::sums_from))]
fn check_sums(alloc: Global, bodies: &[Body]) -> Result<(), FileError>
    requires few { length bodies.now ≤ 64 }
    ensures { Tells result (sums_from nothing 1 bodies.now) }
{
    let mut sums = Tally::new();
    for (index, body) in bodies.iter().enumerate() {
        let within = sums.add(alloc, &body.script)?;
        if !within {
            let place = script_place(index as u16 + 1, 0, 0);
            return Err(FileError::Fault(place.fault(FaultKind::OverLimit)));
        }
    }
    Ok(())
}

/// What the stages run, where they do not do too much.
#[tactic(auto, unfolding(crate::specs::Scripts::bodies_of))]
pub fn read_bodies(
    alloc: Global,
    declared: &Declared,
    resolved: &Resolved,
    stages: &[StageTable],
) -> Result<Seq<Body>, FileError>
    requires few { length stages.now ≤ 16 }
    ensures { Tells result (bodies_of declared.now resolved.now stages.now) }
{
    let bodies = bodies(alloc, declared, resolved, stages)?;
    check_sums(alloc, bodies.as_slice())?;
    Ok(bodies)
}
