//! How much the scripts of a file do, as if every `when` held.

ghost use Rattle.std.specs.Prelude.{◌≡◌, ◌≤◌, ◌<◌, ◌+◌, ◌-◌, ◌*◌, ◌^◌, ◌++◌, [], ◌∷◌, length, get_or, take, IfOk, OnOk, IsTrue, Ok, true, false};
ghost use Rattle.pipeline_lang.specs.Counts.{turns_after, outer_after, executed};
ghost use Rattle.script_binding.specs.Counts.{is_call, called, nothing, tallied, is_within};

use crate::environment::BoundStatement;
use pipeline_lang::{Script, Statement};
use std::alloc::{AllocError, Global};

/// The most statements that the scripts of a file execute.
const MOST_STATEMENTS: u128 = 200_000;

/// The most calls, fence statements and stages together.
const MOST_CALLS: u128 = 20_000;

/// Sums over the first stages of a file: the statements that they execute, and their calls, fence
/// statements and stages together. A statement counts once for each turn of the repeats round it.
#[derive(Clone, Copy)]
pub struct Tally {
    pub statements: u32,
    pub calls: u32,
}

// Whether a statement is a call or a fence statement.
fn is_call(statement: &BoundStatement) -> bool
    ensures { result ≡ is_call statement.now }
{
    match statement {
        Statement::Read(_, _) => true,
        Statement::Write(_, _) => true,
        Statement::Snap(_) => true,
        Statement::Txn(_, _, _) => true,
        Statement::Fence => true,
        _ => false,
    }
}

// Appends the turns round a block.
fn push_turns(outer: &mut Vec<u64>, turns: u64) -> Result<(), AllocError>
    ensures { OnOk result (outer.new.items ≡ outer.old.items ++ turns ∷ []) }
{
    match outer.push(turns) {
        Ok(()) => Ok(()),
        Err(_) => Err(AllocError),
    }
}

// Takes the turns round the innermost block off: 1 where no block is open.
fn pop_turns(outer: &mut Vec<u64>) -> u64
    ensures turns { result ≡ get_or outer.old.items (length outer.old.items - 1) 1 }
    ensures outer { outer.new.items ≡ take (length outer.old.items - 1) outer.old.items }
{
    match outer.pop() {
        Some(turns) => turns,
        None => 1,
    }
}

// The turns round the statement below this one, and those round each block that is open there.
fn turn(turns: u128, outer: &mut Vec<u64>, statement: &BoundStatement) -> Result<u128, AllocError>
    requires { turns ≤ 200000 }
    ensures turns { IfOk result (λ t. t ≡ turns_after turns outer.old.items statement.now) }
    ensures outer { OnOk result (outer.new.items ≡ outer_after turns outer.old.items statement.now) }
    ensures bounded { IfOk result (λ t. t ≤ 200000 * 2 ^ 64) }
{
    match statement {
        Statement::Repeat(count) => {
            push_turns(outer, turns as u64)?;
            Ok(turns * *count as u128)
        }
        Statement::When(_) => {
            push_turns(outer, turns as u64)?;
            Ok(turns)
        }
        Statement::End => Ok(pop_turns(outer) as u128),
        _ => Ok(turns),
    }
}

// Counts a script's statements and calls on top of these sums, and answers whether the statements
// are within the limit. If they are not, the sums say nothing any more. No block is open at first.
fn count(
    outer: &mut Vec<u64>,
    statements: &mut u128,
    calls: &mut u128,
    script: &[BoundStatement],
) -> Result<bool, AllocError>
    requires closed { outer.old.items ≡ [] }
    requires few { statements.old ≤ 200000 }
    requires called { calls.old ≤ 20001 }
    ensures statements { result ≡ Ok true → statements.new ≡ statements.old + executed script.now }
    ensures calls { result ≡ Ok true → calls.new ≡ calls.old + called script.now }
    ensures within { result ≡ Ok true → statements.new ≤ 200000 }
    ensures bounded { result ≡ Ok true → calls.new ≤ 220001 }
    ensures over { result ≡ Ok false → 200000 < statements.old + executed script.now }
{
    let mut turns = 1u128;
    for statement in script {
        *statements += turns;
        if *statements > MOST_STATEMENTS {
            return Ok(false);
        }
        if is_call(statement) {
            *calls += turns;
        }
        turns = turn(turns, outer, statement)?;
    }
    Ok(true)
}

impl Tally {
    /// The sums over no stages.
    pub fn new() -> Tally
        ensures { result ≡ nothing }
    {
        Tally {
            statements: 0,
            calls: 0,
        }
    }

    /// Adds what the script of one stage does, and answers whether the sums are within the limits
    /// of a file. If they are not, the sums say nothing any more.
    pub fn add(&mut self, alloc: Global, script: &Script) -> Result<bool, AllocError>
        requires within { IsTrue (is_within self.old) }
        ensures limit { IfOk result (λ within. within ≡ is_within (tallied self.old script.now)) }
        ensures added { result ≡ Ok true → self.new ≡ tallied self.old script.now }
    {
        let mut outer = Vec::new(alloc);
        let mut statements = self.statements as u128;
        let mut calls = self.calls as u128 + 1;
        if !count(&mut outer, &mut statements, &mut calls, script.as_slice())? {
            return Ok(false);
        }
        if calls > MOST_CALLS {
            return Ok(false);
        }
        self.statements = statements as u32;
        self.calls = calls as u32;
        Ok(true)
    }
}
