//! The printed spelling of scripts.

ghost use Rattle.std.specs.Prelude.{◌≡◌, ◌≤◌, ◌<◌, ◌^◌, ◌++◌, ◌+◌, Ok, OnOk, IfOk, codes};
ghost use Rattle.std.specs.Fmt.{decimal};
ghost use Rattle.pipeline_lang.specs.Scripts.{script_of};
ghost use Rattle.pipeline_lang.specs.Spelled.{IsScript};
ghost use Rattle.pipeline_lang.specs.Grammar.{Spells};
ghost use Rattle.pipeline_lang.specs.Printing.{term_text, expr_text, compare_text, pair_text, written_text, pairs_text, writes_text, more_pairs_text, more_writes_text, guard_text, statement_text, blocks_round as round_by, blocks_behind as behind_by, indent, lines_text, text_of};

use crate::script::{Compare, Expr, RawScript, Statement, Term};
use crate::statements::RawStatement;
use rss_names::{Name, put_number};
use std::alloc::{AllocError, Global};

/// Adds a term.
#[tactic(auto, unfolding(crate::specs::Printing::term_text))]
fn put_term(alloc: Global, text: &mut Vec<u8>, term: &Term<Name>) -> Result<(), AllocError>
    ensures { OnOk result (text.new.items ≡ text.old.items ++ term_text term.now) }
{
    match term {
        Term::Number(number) => put_number(alloc, text, *number),
        Term::Variable(name) => text.extend_from_slice(name.bytes()),
    }
}

/// Adds an expression.
#[tactic(auto, unfolding(crate::specs::Printing::expr_text))]
fn put_expr(alloc: Global, text: &mut Vec<u8>, expr: &Expr<Name>) -> Result<(), AllocError>
    ensures { OnOk result (text.new.items ≡ text.old.items ++ expr_text expr.now) }
{
    match expr {
        Expr::One(first) => put_term(alloc, text, first),
        Expr::Plus(first, second) => {
            put_term(alloc, text, first)?;
            text.extend_from_slice(b" + ")?;
            put_term(alloc, text, second)
        }
        Expr::Minus(first, second) => {
            put_term(alloc, text, first)?;
            text.extend_from_slice(b" - ")?;
            put_term(alloc, text, second)
        }
    }
}

/// Adds a comparison.
#[tactic(auto, unfolding(crate::specs::Printing::compare_text))]
fn put_compare(alloc: Global, text: &mut Vec<u8>, test: &Compare<Name>) -> Result<(), AllocError>
    ensures { OnOk result (text.new.items ≡ text.old.items ++ compare_text test.now) }
{
    match test {
        Compare::Equal(left, right) => {
            put_expr(alloc, text, left)?;
            text.extend_from_slice(b" = ")?;
            put_expr(alloc, text, right)
        }
        Compare::Less(left, right) => {
            put_expr(alloc, text, left)?;
            text.extend_from_slice(b" < ")?;
            put_expr(alloc, text, right)
        }
    }
}

/// Adds a pair of a transaction.
#[tactic(auto, unfolding(crate::specs::Printing::pair_text))]
fn put_pair(text: &mut Vec<u8>, pair: &(Name, Name)) -> Result<(), AllocError>
    ensures { OnOk result (text.new.items ≡ text.old.items ++ pair_text pair.now) }
{
    text.extend_from_slice(pair.0.bytes())?;
    text.extend_from_slice(b" ")?;
    text.extend_from_slice(pair.1.bytes())
}

/// Adds a pair that stands behind another.
fn put_next_pair(text: &mut Vec<u8>, pair: &(Name, Name)) -> Result<(), AllocError>
    ensures { OnOk result (text.new.items ≡ text.old.items ++ (codes ", " ++ pair_text pair.now)) }
{
    text.extend_from_slice(b", ")?;
    put_pair(text, pair)
}

/// Adds what stands behind the first pair of a transaction.
#[tactic(auto, unfolding(crate::specs::Printing::more_pairs_text))]
fn put_more_pairs(text: &mut Vec<u8>, pairs: &[(Name, Name)]) -> Result<(), AllocError>
    ensures { OnOk result (text.new.items ≡ text.old.items ++ more_pairs_text pairs.now) }
{
    for pair in pairs {
        put_next_pair(text, pair)?;
    }
    Ok(())
}

/// Adds pairs of a transaction, each behind a space, with `,` between.
#[tactic(auto, unfolding(crate::specs::Printing::pairs_text))]
fn put_pairs(text: &mut Vec<u8>, pairs: &[(Name, Name)]) -> Result<(), AllocError>
    ensures { OnOk result (text.new.items ≡ text.old.items ++ pairs_text pairs.now) }
{
    match pairs.split_first() {
        Some((first, more)) => {
            text.extend_from_slice(b" ")?;
            put_pair(text, first)?;
            put_more_pairs(text, more)
        }
        None => Ok(()),
    }
}

/// Adds a write of a transaction.
#[tactic(auto, unfolding(crate::specs::Printing::written_text))]
fn put_written(
    alloc: Global,
    text: &mut Vec<u8>,
    written: &(Name, Expr<Name>),
) -> Result<(), AllocError>
    ensures { OnOk result (text.new.items ≡ text.old.items ++ written_text written.now) }
{
    text.extend_from_slice(written.0.bytes())?;
    text.extend_from_slice(b" = ")?;
    put_expr(alloc, text, &written.1)
}

/// Adds a write that stands behind another.
fn put_next_written(
    alloc: Global,
    text: &mut Vec<u8>,
    written: &(Name, Expr<Name>),
) -> Result<(), AllocError>
    ensures { OnOk result (text.new.items ≡ text.old.items ++ (codes ", " ++ written_text written.now)) }
{
    text.extend_from_slice(b", ")?;
    put_written(alloc, text, written)
}

/// Adds what stands behind the first write of a transaction.
#[tactic(auto, unfolding(crate::specs::Printing::more_writes_text))]
fn put_more_writes(
    alloc: Global,
    text: &mut Vec<u8>,
    writes: &[(Name, Expr<Name>)],
) -> Result<(), AllocError>
    ensures { OnOk result (text.new.items ≡ text.old.items ++ more_writes_text writes.now) }
{
    for written in writes {
        put_next_written(alloc, text, written)?;
    }
    Ok(())
}

/// Adds writes of a transaction, each behind a space, with `,` between.
#[tactic(auto, unfolding(crate::specs::Printing::writes_text))]
fn put_writes(
    alloc: Global,
    text: &mut Vec<u8>,
    writes: &[(Name, Expr<Name>)],
) -> Result<(), AllocError>
    ensures { OnOk result (text.new.items ≡ text.old.items ++ writes_text writes.now) }
{
    match writes.split_first() {
        Some((first, more)) => {
            text.extend_from_slice(b" ")?;
            put_written(alloc, text, first)?;
            put_more_writes(alloc, text, more)
        }
        None => Ok(()),
    }
}

/// Adds the guard of a `txn`.
#[tactic(auto, unfolding(crate::specs::Printing::guard_text))]
fn put_guard(
    alloc: Global,
    text: &mut Vec<u8>,
    guard: &Option<Compare<Name>>,
) -> Result<(), AllocError>
    ensures { OnOk result (text.new.items ≡ text.old.items ++ guard_text guard.now) }
{
    match guard {
        Some(test) => {
            text.extend_from_slice(b" when ")?;
            put_compare(alloc, text, test)
        }
        None => Ok(()),
    }
}

/// Adds what stands behind the first word of a statement of names and an expression.
fn put_assigned(
    alloc: Global,
    text: &mut Vec<u8>,
    word: &[u8],
    name: &Name,
    between: &[u8],
    value: &Expr<Name>,
) -> Result<(), AllocError>
    ensures { OnOk result (text.new.items ≡ text.old.items ++ (word.now ++ name.now ++ between.now ++ expr_text value.now)) }
{
    text.extend_from_slice(word)?;
    text.extend_from_slice(name.bytes())?;
    text.extend_from_slice(between)?;
    put_expr(alloc, text, value)
}

/// Adds a word and two names.
fn put_two(text: &mut Vec<u8>, word: &[u8], first: &Name, second: &Name) -> Result<(), AllocError>
    ensures { OnOk result (text.new.items ≡ text.old.items ++ (word.now ++ first.now ++ codes " " ++ second.now)) }
{
    text.extend_from_slice(word)?;
    text.extend_from_slice(first.bytes())?;
    text.extend_from_slice(b" ")?;
    text.extend_from_slice(second.bytes())
}

/// Adds a word and a name.
fn put_one(text: &mut Vec<u8>, word: &[u8], name: &Name) -> Result<(), AllocError>
    ensures { OnOk result (text.new.items ≡ text.old.items ++ (word.now ++ name.now)) }
{
    text.extend_from_slice(word)?;
    text.extend_from_slice(name.bytes())
}

/// Adds a `snap`.
fn put_snap(text: &mut Vec<u8>, pairs: &[(Name, Name)]) -> Result<(), AllocError>
    ensures { OnOk result (text.new.items ≡ text.old.items ++ (codes "snap" ++ pairs_text pairs.now)) }
{
    text.extend_from_slice(b"snap")?;
    put_pairs(text, pairs)
}

/// Adds a `repeat`.
fn put_repeat(alloc: Global, text: &mut Vec<u8>, count: u64) -> Result<(), AllocError>
    ensures { OnOk result (text.new.items ≡ text.old.items ++ (codes "repeat " ++ decimal count)) }
{
    text.extend_from_slice(b"repeat ")?;
    put_number(alloc, text, count)
}

/// Adds a `when`.
fn put_when(alloc: Global, text: &mut Vec<u8>, test: &Compare<Name>) -> Result<(), AllocError>
    ensures { OnOk result (text.new.items ≡ text.old.items ++ (codes "when " ++ compare_text test.now)) }
{
    text.extend_from_slice(b"when ")?;
    put_compare(alloc, text, test)
}

/// Adds a `txn`.
fn put_txn(
    alloc: Global,
    text: &mut Vec<u8>,
    pairs: &[(Name, Name)],
    guard: &Option<Compare<Name>>,
    writes: &[(Name, Expr<Name>)],
) -> Result<(), AllocError>
    ensures { OnOk result (text.new.items ≡ text.old.items ++ (codes "txn" ++ pairs_text pairs.now ++ guard_text guard.now ++ codes " :" ++ writes_text writes.now)) }
{
    text.extend_from_slice(b"txn")?;
    put_pairs(text, pairs)?;
    put_guard(alloc, text, guard)?;
    text.extend_from_slice(b" :")?;
    put_writes(alloc, text, writes)
}

/// Adds a statement.
#[tactic(auto, unfolding(crate::specs::Printing::statement_text))]
fn put_statement(
    alloc: Global,
    text: &mut Vec<u8>,
    statement: &RawStatement,
) -> Result<(), AllocError>
    ensures { OnOk result (text.new.items ≡ text.old.items ++ statement_text statement.now) }
{
    match statement {
        Statement::Let(variable, value) => put_assigned(
            alloc, text, b"let ", variable, b" = ", value,
        ),
        Statement::Read(variable, register) => put_two(text, b"read ", variable, register),
        Statement::Write(register, value) => put_assigned(
            alloc, text, b"write ", register, b" ", value,
        ),
        Statement::Snap(pairs) => put_snap(text, pairs.as_slice()),
        Statement::Txn(pairs, guard, writes) => put_txn(
            alloc,
            text,
            pairs.as_slice(),
            guard,
            writes.as_slice(),
        ),
        Statement::Spawn(stage) => put_one(text, b"spawn ", stage),
        Statement::Wait(stage) => put_one(text, b"wait ", stage),
        Statement::Put(pipe, value) => put_assigned(alloc, text, b"put ", pipe, b" ", value),
        Statement::Take(variable, pipe) => put_two(text, b"take ", variable, pipe),
        Statement::Close(pipe) => put_one(text, b"close ", pipe),
        Statement::Fence => text.extend_from_slice(b"fence"),
        Statement::Repeat(count) => put_repeat(alloc, text, *count),
        Statement::When(test) => put_when(alloc, text, test),
        Statement::End => text.extend_from_slice(b"end"),
        Statement::Exit => text.extend_from_slice(b"exit"),
    }
}

/// How many blocks stand round a statement.
fn blocks_round(blocks: usize, statement: &RawStatement) -> usize
    ensures { result ≡ round_by blocks statement.now }
{
    match statement {
        Statement::End => blocks.saturating_sub(1),
        _ => blocks,
    }
}

/// How many blocks stand round what is behind a statement.
fn blocks_behind(blocks: usize, statement: &RawStatement) -> usize
    requires { blocks < 2 ^ 63 }
    ensures same { result ≡ behind_by blocks statement.now }
    ensures most { result ≤ blocks + 1 }
{
    match statement {
        Statement::Repeat(_) => blocks + 1,
        Statement::When(_) => blocks + 1,
        Statement::End => blocks.saturating_sub(1),
        _ => blocks,
    }
}

/// Adds two spaces for each block.
#[tactic(auto, unfolding(crate::specs::Printing::indent))]
fn put_indent(text: &mut Vec<u8>, blocks: usize) -> Result<(), AllocError>
    ensures { OnOk result (text.new.items ≡ text.old.items ++ indent blocks) }
{
    let mut left = blocks;
    while left > 0 {
        text.extend_from_slice(b"  ")?;
        left -= 1;
    }
    Ok(())
}

/// Adds the line of a statement.
fn put_line(
    alloc: Global,
    text: &mut Vec<u8>,
    blocks: usize,
    statement: &RawStatement,
) -> Result<(), AllocError>
    ensures { OnOk result (text.new.items ≡ text.old.items ++ (indent (round_by blocks statement.now) ++ statement_text statement.now ++ codes "\n")) }
{
    put_indent(text, blocks_round(blocks, statement))?;
    put_statement(alloc, text, statement)?;
    text.extend_from_slice(b"\n")
}

/// Adds the lines of a script.
#[tactic(auto, unfolding(crate::specs::Printing::lines_text))]
fn put_lines(alloc: Global, text: &mut Vec<u8>, script: &[RawStatement]) -> Result<(), AllocError>
    ensures { OnOk result (text.new.items ≡ text.old.items ++ text_of script.now) }
{
    let mut blocks = 0;
    for statement in script {
        put_line(alloc, text, blocks, statement)?;
        blocks = blocks_behind(blocks, statement);
    }
    Ok(())
}

/// The printed spelling of a script: a statement on a line, two spaces for each block round it, one
/// space between tokens and none before `,`. An `end` stands outside its block. `parse` reads a
/// script that some text spells back from it: `repeat`, `when` and `end` are balanced, a `snap` has
/// a pair and a `txn` a write, a guard stands behind a pair only, and `status` is not set.
#[tactic(auto, using(crate::proofs::Grammatical::printed))]
pub fn print(alloc: Global, script: &RawScript) -> Result<Vec<u8>, AllocError>
    ensures printed { IfOk result (λ text. text.items ≡ text_of script.now) }
    ensures spells { IsScript script.now → IfOk result (λ text. Spells text.items script.now) }
    ensures again { IsScript script.now → IfOk result (λ text. script_of text.items ≡ Ok script.now) }
{
    let mut text = Vec::new(alloc);
    put_lines(alloc, &mut text, script.as_slice())?;
    Ok(text)
}
