//! The reading of whole scripts.

ghost use Rattle.std.specs.Prelude.{◌≡◌, ◌<◌, ◌≤◌, ◌+◌, ◌^◌, ℕ, length, List, IfSome, IfOk, MatchResult};
ghost use Rattle.pipeline_lang.specs.Tokens.{tokens as tokens_of};
ghost use Rattle.pipeline_lang.specs.Reading.{Gives};
ghost use Rattle.pipeline_lang.specs.Statements.{Raw};
ghost use Rattle.pipeline_lang.specs.Grammar.{Spells};
ghost use Rattle.pipeline_lang.specs.Scripts.{open_behind as open_by, refusal as refusal_by, is_end_too_many as end_too_many, inside_at, nested_at, script_of, Parses};

use crate::error::ParseError;
use crate::lines::{column, is_statement, split_line};
use crate::script::{RawScript, Statement};
use crate::statements::{RawStatement, read_statement};
use crate::stop::Stop;
use crate::tokens::Line;
use rss_names::Seq;
use std::alloc::Global;

/// How many blocks are open behind a statement, if so many are open before it: an `end` needs an
/// open one.
fn open_behind(depth: usize, statement: &RawStatement) -> Option<usize>
    requires { depth < 2 ^ 63 }
    ensures same { result ≡ open_by depth statement.now }
    ensures most { IfSome result (λ behind. behind ≤ depth + 1) }
{
    match statement {
        Statement::Repeat(_) => Some(depth + 1),
        Statement::When(_) => Some(depth + 1),
        Statement::End => depth.checked_sub(1),
        _ => Some(depth),
    }
}

/// Reads the statement of a line inside so many blocks, and counts how many are open behind it.
#[tactic(auto, unfolding(crate::specs::Scripts::inside_at))]
fn read_inside(alloc: Global, depth: usize, line: &[u8]) -> Result<(RawStatement, usize), Stop>
    requires { depth < 2 ^ 63 }
    ensures read { Gives result (inside_at depth (tokens_of line.now)) }
    ensures most { IfOk result (λ r. r.1 ≤ depth + 1) }
{
    let first = Line::new(line).place();
    let statement = match read_statement(alloc, &mut Line::new(line)) {
        Ok(statement) => statement,
        Err(stop) => return Err(stop),
    };
    match open_behind(depth, &statement) {
        Some(behind) => Ok((statement, behind)),
        None => Err(Stop::Misfit(first)),
    }
}

/// Whether an `end` begins a line that no block is open round.
fn is_end_too_many(depth: usize, line: &[u8]) -> bool
    ensures { result ≡ end_too_many depth (tokens_of line.now) }
{
    depth == 0 && Line::new(line).begins(b"end")
}

/// The same, where an `end` too many is refused before anything behind it is read.
#[tactic(auto, unfolding(crate::specs::Scripts::nested_at))]
fn read_nested(alloc: Global, depth: usize, line: &[u8]) -> Result<(RawStatement, usize), Stop>
    requires { depth < 2 ^ 63 }
    ensures read { Gives result (nested_at depth (tokens_of line.now)) }
    ensures most { IfOk result (λ r. r.1 ≤ depth + 1) }
{
    if is_end_too_many(depth, line) {
        return Err(Stop::Misfit(Line::new(line).place()));
    }
    read_inside(alloc, depth, line)
}

/// The answer where the reading of a statement stops.
fn refusal(number: u64, line: &[u8], stop: Stop) -> ParseError
    ensures { result ≡ refusal_by number line.now stop }
{
    match stop {
        Stop::Misfit(left) => ParseError::Syntax {
            statement: number,
            column: column(line, left),
        },
        Stop::OutOfMemory => ParseError::OutOfMemory,
    }
}

/// The script that a text spells, or where it goes off the grammar.
fn read_script(alloc: Global, text: &[u8]) -> Result<RawScript, ParseError>
    ensures read { Parses result (script_of text.now) }
{
    let mut script = Vec::new(alloc);
    let mut depth = 0;
    let mut end = 1;
    let mut rest = Some(text);
    while let Some(left) = rest {
        let (line, behind) = split_line(left);
        if is_statement(line) {
            match read_nested(alloc, depth, line) {
                Ok((statement, inside)) => {
                    match script.push(statement) {
                        Ok(()) => {}
                        Err(_) => return Err(ParseError::OutOfMemory),
                    }
                    depth = inside;
                    end = column(line, 0);
                }
                Err(stop) => return Err(refusal(script.len() as u64 + 1, line, stop)),
            }
        }
        rest = behind;
    }
    if depth > 0 {
        return Err(ParseError::Syntax {
            statement: script.len() as u64,
            column: end,
        });
    }
    Ok(Seq::from_vec(script))
}

/// The script that a text spells, with one statement on a line: a carriage return and a tab count
/// as a space, and empty lines and lines that begin with `#` are no statements. Any other text is a
/// `Syntax` at the first token that cannot stand: an `end` where no block is open cannot, whatever
/// stands behind it.
pub fn parse(alloc: Global, text: &[u8]) -> Result<RawScript, ParseError>
    ensures read { Parses result (script_of text.now) }
    ensures spelled { IfOk result (λ script. Spells text.now script) }
    ensures only { (script : List Raw) → Spells text.now script
        → MatchResult result (λ read. read ≡ script) (λ e. e ≡ ParseError.OutOfMemory) }
{
    read_script(alloc, text)
}
