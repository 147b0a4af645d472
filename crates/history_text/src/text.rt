//! The reading of the whole text of a history.

ghost use Rattle.std.specs.Prelude.{◌≡◌, ◌<◌, ◌≤◌, ◌+◌, ◌^◌, ◌∷◌, [], length, IfOk, IfSome};
ghost use Rattle.std.specs.List.{slice_split};
ghost use Rattle.pipeline_lang.specs.Tokens.{is_newline, line_size as size_by, lines_left};
ghost use Rattle.history_text.specs.Texts.{places_from, history_of_text, refused_at, Tells, TellsPlaces, LeadsOn};

use crate::entries::{entry_of, placed_of};
use crate::error::HistoryError;
use crate::reading::Reading;
use crate::stop::Stop;
use pipeline_lang::Config;
use rss_model::{Candidate, History};
use rss_names::{CallId, Seq};
use std::alloc::Global;

/// How many bytes stand before the first newline.
fn line_size(text: &[u8]) -> usize
    ensures same { result ≡ size_by text.now }
    ensures within { result ≤ length text.now }
{
    let mut size = 0;
    for byte in text {
        if *byte == b'\n' {
            return size;
        }
        size += 1;
    }
    size
}

/// The first line of a text, and what stands behind its newline, if it has one.
#[tactic(auto, using(pipeline_lang::proofs::LineLaws::first_lines))]
fn split_line(text: &[u8]) -> (&[u8], Option<&[u8]>)
    ensures lines { slice_split is_newline text.now ≡ result.0.now ∷ lines_left result.1 }
    ensures shorter { IfSome result.1 (λ rest. length rest.now < length text.now) }
{
    let (line, rest) = text.split_at(line_size(text));
    match rest.split_first() {
        Some((_, behind)) => (line, Some(behind)),
        None => (line, None),
    }
}

/// The answer where the reading of the line of this number stops.
fn refusal(line: u32, stop: Stop) -> HistoryError
    ensures { result ≡ refused_at line stop }
{
    match stop {
        Stop::Misfit => HistoryError::BadHistory { line },
        Stop::OutOfMemory => HistoryError::OutOfMemory,
    }
}

/// Reads the calls of an order, from the line of this number on.
#[tactic(auto, using(crate::proofs::Lines::place_more, crate::proofs::Lines::place_bad, crate::proofs::Lines::place_last))]
fn read_places(alloc: Global, first: u32, text: &[u8]) -> Result<Vec<CallId>, HistoryError>
    requires { first + length text.now < 2 ^ 32 }
    ensures { TellsPlaces result (places_from first [] (slice_split is_newline text.now)) }
{
    let mut calls = Vec::new(alloc);
    let mut number = first;
    let mut rest = text;
    loop {
        let (line, behind) = split_line(rest);
        match behind {
            Some(more) => {
                match placed_of(line) {
                    Ok(call) => match calls.push(call) {
                        Ok(()) => {}
                        Err(_) => return Err(HistoryError::OutOfMemory),
                    },
                    Err(stop) => return Err(refusal(number, stop)),
                }
                number += 1;
                rest = more;
            }
            None => {
                if line.is_empty() {
                    return Ok(calls);
                }
                return Err(HistoryError::BadHistory { line: number });
            }
        }
    }
}

/// Reads entries up to the line `%places`, and gives the number of the line behind it, and the text
/// from there on.
#[tactic(auto, using(crate::proofs::Lines::entries_end, crate::proofs::Lines::entries_more, crate::proofs::Lines::entries_bad, crate::proofs::Lines::entries_last))]
fn read_entries<'a>(
    alloc: Global,
    config: &Config,
    text: &'a [u8],
    reading: &mut Reading,
) -> Result<(u32, &'a [u8]), HistoryError>
    requires empty { reading.old ≡ [] }
    requires short { length text.now + 1 < 2 ^ 32 }
    ensures read { LeadsOn result reading.new (history_of_text config.now text.now) }
    ensures short { IfOk result (λ r. r.0 + length r.1.now < 2 ^ 32) }
{
    let mut number: u32 = 1;
    let mut rest = text;
    loop {
        let (line, behind) = split_line(rest);
        match behind {
            Some(more) => {
                if line == b"%places".as_slice() {
                    return Ok((number + 1, more));
                }
                match entry_of(alloc, config, reading, line) {
                    Ok(entry) => match reading.add(entry) {
                        Ok(()) => {}
                        Err(_) => return Err(HistoryError::OutOfMemory),
                    },
                    Err(stop) => return Err(refusal(number, stop)),
                }
                number += 1;
                rest = more;
            }
            None => return Err(HistoryError::BadHistory { line: number }),
        }
    }
}

/// The history and the order of its calls that a text spells, by the names of a file, or its first
/// bad line. A line is bad where it is off the grammar, begins a call that was begun, ends one that
/// is not begun or has ended, lists other keys than the operation reads, names a position that is no
/// read of its operation, or gets a message that was not given above; so is what stands behind the
/// last newline, and, where the line `%places` is missing, the line behind the last. A position
/// above 256 is off the grammar.
pub fn read_history(
    alloc: Global,
    config: &Config,
    text: &[u8],
) -> Result<(History, Candidate), HistoryError>
    requires short { length text.now + 1 < 2 ^ 32 }
    ensures read { Tells result (history_of_text config.now text.now) }
{
    let mut reading = Reading::new(alloc);
    let (number, rest) = match read_entries(alloc, config, text, &mut reading) {
        Ok(found) => found,
        Err(error) => return Err(error),
    };
    match read_places(alloc, number, rest) {
        Ok(calls) => Ok((reading.into_history(), Seq::from_vec(calls))),
        Err(error) => Err(error),
    }
}
