//! The lines of a script's text.

ghost use Rattle.std.specs.Prelude.{◌≡◌, ◌≤◌, ◌+◌, ◌-◌, ◌∷◌, slice_get, length};
ghost use Rattle.std.specs.List.{slice_split};
ghost use Rattle.pipeline_lang.specs.Tokens.{tokens as tokens_of, is_newline, line_size as size_by, is_statement as statement_line, lines_left, column as column_at, column_of as column_with, token_column as column_by};

use crate::tokens::Line;

/// How many bytes stand before the first newline.
fn line_size(text: &[u8]) -> usize
    ensures same { result ≡ size_by text.now }
    ensures within { result ≤ length text.now }
{
    let mut size = 0;
    for byte in text {
        if *byte == b'\n' {
            return size;
        }
        size += 1;
    }
    size
}

/// The first line of a text, and what stands behind its newline, if it has one.
#[tactic(auto, using(crate::proofs::LineLaws::first_lines))]
pub fn split_line(text: &[u8]) -> (&[u8], Option<&[u8]>)
    ensures { slice_split is_newline text.now ≡ result.0.now ∷ lines_left result.1 }
{
    let (line, rest) = text.split_at(line_size(text));
    match rest.split_first() {
        Some((_, behind)) => (line, Some(behind)),
        None => (line, None),
    }
}

/// Whether a line is a statement: it has a token, and the first one is no `#`.
pub fn is_statement(line: &[u8]) -> bool
    ensures { result ≡ statement_line line.now }
{
    match Line::new(line).token() {
        Some((word, _)) => word != b"#".as_slice(),
        None => false,
    }
}

/// The column, from 1, of the place in a line from which so many bytes are left.
pub fn column(line: &[u8], left: usize) -> u64
    ensures { result ≡ column_at line.now left }
{
    (line.len() + 1).saturating_sub(left) as u64
}

/// The column of a token of a line by its number, from 0, or 0 where the line has none.
fn column_of_token(line: &[u8], token: u64) -> u64
    ensures { result ≡ column_with line.now (slice_get (tokens_of line.now) token) }
{
    let mut rest = Line::new(line);
    let mut before = token;
    while let Some((_, left)) = rest.token() {
        if before == 0 {
            return column(line, left);
        }
        before -= 1;
    }
    0
}

/// The column, from 1, of a token of a script's text: the number of its statement counts from 1,
/// its own number in there from 0. It is 0 where the text has no such statement or the statement
/// no such token.
pub fn token_column(text: &[u8], statement: u64, token: u64) -> u64
    ensures { result ≡ column_by text.now statement token }
{
    if statement == 0 {
        return 0;
    }
    let mut before = statement - 1;
    let mut rest = Some(text);
    while let Some(left) = rest {
        let (line, behind) = split_line(left);
        if is_statement(line) {
            if before == 0 {
                return column_of_token(line, token);
            }
            before -= 1;
        }
        rest = behind;
    }
    0
}
