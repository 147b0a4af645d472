//! The reading of statements.

ghost use Rattle.std.specs.Prelude.{◌≡◌, ◌∷◌, [], ◌++◌, Ok, Err, MatchResult};
ghost use Rattle.pipeline_lang.specs.declared.stop.Stop.TheVariants as stop;
ghost use Rattle.pipeline_lang.specs.Reading.{Reads, Gives, Adds, token_at};
ghost use Rattle.pipeline_lang.specs.declared.script.Statement.TheVariants as written;
ghost use Rattle.pipeline_lang.specs.Statements.{keyword, pair_at, written_at, pairs_at, writes_at, let_at, read_at, write_at, snap_at, guard_at, reads_at, txn_at, put_at, take_at, repeat_at, when_at, parts_at, statement_at, named_at};

use crate::keyword::{Keyword, keyword_of};
use crate::script::{Compare, Expr, Statement, Term};
use crate::stop::Stop;
use crate::terms::{read_compare, read_expr, read_name, read_number, read_own};
use crate::tokens::Line;
use rss_names::{Name, Seq};
use std::alloc::Global;

/// A statement with names as they are written.
pub type RawStatement = Statement<Name, Name, Name, Name>;

/// Reads the word with which a statement begins.
fn read_keyword(line: &mut Line) -> Result<Keyword, Stop>
    ensures { Reads result line.new (token_at keyword line.old) }
{
    match line.token() {
        Some((word, left)) => match keyword_of(word) {
            Some(keyword) => Ok(keyword),
            None => Err(Stop::Misfit(left)),
        },
        None => Err(Stop::Misfit(0)),
    }
}

/// Reads a pair of a transaction.
#[tactic(auto, unfolding(crate::specs::Statements::pair_at))]
fn read_pair(line: &mut Line) -> Result<(Name, Name), Stop>
    ensures { Reads result line.new (pair_at line.old) }
{
    let variable = read_own(line)?;
    let key = read_name(line)?;
    Ok((variable, key))
}

/// Reads a write of a transaction.
#[tactic(auto, unfolding(crate::specs::Statements::written_at))]
fn read_written(line: &mut Line) -> Result<(Name, Expr<Name>), Stop>
    ensures { Reads result line.new (written_at line.old) }
{
    let key = read_name(line)?;
    line.word(b"=")?;
    let value = read_expr(line)?;
    Ok((key, value))
}

/// Reads what stands behind `let`.
#[tactic(auto, unfolding(crate::specs::Statements::let_at))]
fn read_let(line: &mut Line) -> Result<RawStatement, Stop>
    ensures { Reads result line.new (let_at line.old) }
{
    let variable = read_own(line)?;
    line.word(b"=")?;
    let value = read_expr(line)?;
    Ok(Statement::Let(variable, value))
}

/// Reads what stands behind `read`.
#[tactic(auto, unfolding(crate::specs::Statements::read_at))]
fn read_read(line: &mut Line) -> Result<RawStatement, Stop>
    ensures { Reads result line.new (read_at line.old) }
{
    let variable = read_own(line)?;
    let register = read_name(line)?;
    Ok(Statement::Read(variable, register))
}

/// Reads what stands behind `write`.
#[tactic(auto, unfolding(crate::specs::Statements::write_at))]
fn read_write(line: &mut Line) -> Result<RawStatement, Stop>
    ensures { Reads result line.new (write_at line.old) }
{
    let register = read_name(line)?;
    let value = read_expr(line)?;
    Ok(Statement::Write(register, value))
}

/// Reads what stands behind `put`.
#[tactic(auto, unfolding(crate::specs::Statements::put_at))]
fn read_put(line: &mut Line) -> Result<RawStatement, Stop>
    ensures { Reads result line.new (put_at line.old) }
{
    let pipe = read_name(line)?;
    let value = read_expr(line)?;
    Ok(Statement::Put(pipe, value))
}

/// Reads what stands behind `take`.
#[tactic(auto, unfolding(crate::specs::Statements::take_at))]
fn read_take(line: &mut Line) -> Result<RawStatement, Stop>
    ensures { Reads result line.new (take_at line.old) }
{
    let variable = read_own(line)?;
    let pipe = read_name(line)?;
    Ok(Statement::Take(variable, pipe))
}

/// Reads what stands behind `repeat`.
#[tactic(auto, unfolding(crate::specs::Statements::repeat_at))]
fn read_repeat(line: &mut Line) -> Result<RawStatement, Stop>
    ensures { Reads result line.new (repeat_at line.old) }
{
    let count = read_number(line)?;
    Ok(Statement::Repeat(count))
}

/// Reads what stands behind `when`.
#[tactic(auto, unfolding(crate::specs::Statements::when_at))]
fn read_when(line: &mut Line) -> Result<RawStatement, Stop>
    ensures { Reads result line.new (when_at line.old) }
{
    let test = read_compare(line)?;
    Ok(Statement::When(test))
}

/// Reads the guard of a `txn`, if it has one.
#[tactic(auto, unfolding(crate::specs::Statements::guard_at))]
fn read_guard(line: &mut Line) -> Result<Option<Compare<Name>>, Stop>
    ensures { Reads result line.new (guard_at line.old) }
{
    if line.takes(b"when") {
        let guard = read_compare(line)?;
        return Ok(Some(guard));
    }
    Ok(None)
}

/// Adds one item to others.
fn push<T: Copy>(items: &mut Vec<T>, item: T) -> Result<(), Stop>
    ensures { MatchResult result (λ _. items.new.items ≡ items.old.items ++ item ∷ []) (λ e. e ≡ stop.OutOfMemory) }
{
    match items.push(item) {
        Ok(()) => Ok(()),
        Err(_) => Err(Stop::OutOfMemory),
    }
}

/// Reads a pair of a transaction and adds it to others.
fn add_pair(line: &mut Line, pairs: &mut Vec<(Name, Name)>) -> Result<(), Stop>
    ensures { Adds result pairs.old.items pairs.new.items line.new (pair_at line.old) }
{
    match read_pair(line) {
        Ok(pair) => push(pairs, pair),
        Err(stop) => Err(stop),
    }
}

/// Reads pairs, with `,` between.
fn read_pairs(alloc: Global, line: &mut Line) -> Result<Seq<(Name, Name)>, Stop>
    ensures { Reads result line.new (pairs_at line.old) }
{
    let mut pairs = Vec::new(alloc);
    loop {
        match add_pair(line, &mut pairs) {
            Ok(()) => {}
            Err(stop) => return Err(stop),
        }
        if !line.takes(b",") {
            return Ok(Seq::from_vec(pairs));
        }
    }
}

/// Reads a write of a transaction and adds it to others.
fn add_written(line: &mut Line, writes: &mut Vec<(Name, Expr<Name>)>) -> Result<(), Stop>
    ensures { Adds result writes.old.items writes.new.items line.new (written_at line.old) }
{
    match read_written(line) {
        Ok(written) => push(writes, written),
        Err(stop) => Err(stop),
    }
}

/// Reads writes, with `,` between.
fn read_writes(alloc: Global, line: &mut Line) -> Result<Seq<(Name, Expr<Name>)>, Stop>
    ensures { Reads result line.new (writes_at line.old) }
{
    let mut writes = Vec::new(alloc);
    loop {
        match add_written(line, &mut writes) {
            Ok(()) => {}
            Err(stop) => return Err(stop),
        }
        if !line.takes(b",") {
            return Ok(Seq::from_vec(writes));
        }
    }
}

/// Reads what stands behind `snap`.
#[tactic(auto, unfolding(crate::specs::Statements::snap_at))]
fn read_snap(alloc: Global, line: &mut Line) -> Result<RawStatement, Stop>
    ensures { Reads result line.new (snap_at line.old) }
{
    let pairs = read_pairs(alloc, line)?;
    Ok(Statement::Snap(pairs))
}

/// Reads the pairs of a `txn` and its guard.
#[tactic(auto, unfolding(crate::specs::Statements::reads_at))]
fn read_reads(
    alloc: Global,
    line: &mut Line,
) -> Result<(Seq<(Name, Name)>, Option<Compare<Name>>), Stop>
    ensures { Reads result line.new (reads_at line.old) }
{
    if line.begins(b":") {
        return Ok((Seq::new(alloc), None));
    }
    let pairs = read_pairs(alloc, line)?;
    let guard = read_guard(line)?;
    Ok((pairs, guard))
}

/// Reads what stands behind `txn`.
#[tactic(auto, unfolding(crate::specs::Statements::txn_at))]
fn read_txn(alloc: Global, line: &mut Line) -> Result<RawStatement, Stop>
    ensures { Reads result line.new (txn_at line.old) }
{
    let (pairs, guard) = read_reads(alloc, line)?;
    line.word(b":")?;
    let writes = read_writes(alloc, line)?;
    Ok(Statement::Txn(pairs, guard, writes))
}

/// Reads what stands behind `spawn`.
fn read_spawn(line: &mut Line) -> Result<RawStatement, Stop>
    ensures { Reads result line.new (named_at written.Spawn line.old) }
{
    let stage = read_name(line)?;
    Ok(Statement::Spawn(stage))
}

/// Reads what stands behind `wait`.
fn read_wait(line: &mut Line) -> Result<RawStatement, Stop>
    ensures { Reads result line.new (named_at written.Wait line.old) }
{
    let stage = read_name(line)?;
    Ok(Statement::Wait(stage))
}

/// Reads what stands behind `close`.
fn read_close(line: &mut Line) -> Result<RawStatement, Stop>
    ensures { Reads result line.new (named_at written.Close line.old) }
{
    let pipe = read_name(line)?;
    Ok(Statement::Close(pipe))
}

/// Reads what stands behind the first word of a statement.
#[tactic(auto, unfolding(crate::specs::Statements::parts_at))]
fn read_parts(alloc: Global, keyword: Keyword, line: &mut Line) -> Result<RawStatement, Stop>
    ensures { Reads result line.new (parts_at keyword line.old) }
{
    match keyword {
        Keyword::Let => read_let(line),
        Keyword::Read => read_read(line),
        Keyword::Write => read_write(line),
        Keyword::Snap => read_snap(alloc, line),
        Keyword::Txn => read_txn(alloc, line),
        Keyword::Spawn => read_spawn(line),
        Keyword::Wait => read_wait(line),
        Keyword::Put => read_put(line),
        Keyword::Take => read_take(line),
        Keyword::Close => read_close(line),
        Keyword::Fence => Ok(Statement::Fence),
        Keyword::Repeat => read_repeat(line),
        Keyword::When => read_when(line),
        Keyword::End => Ok(Statement::End),
        Keyword::Exit => Ok(Statement::Exit),
    }
}

/// Reads a statement, up to the end of its line.
#[tactic(auto, unfolding(crate::specs::Statements::statement_at))]
pub fn read_statement(alloc: Global, line: &mut Line) -> Result<RawStatement, Stop>
    ensures { Gives result (statement_at line.old) }
{
    let keyword = read_keyword(line)?;
    let statement = read_parts(alloc, keyword, line)?;
    line.end()?;
    Ok(statement)
}
