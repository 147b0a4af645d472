//! Commands and their options.

ghost use Rattle.std.specs.Prelude.{◌≡◌, ◌∷◌, [], map, MatchOption};
ghost use Rattle.std.specs.String.{string_bytes};
ghost use Rattle.command_words.specs.Words.{IsCalled, IsCommand, IsNoDisk, IsNoOption, NamesNone, option_words, words_of};

use crate::numbers::number_upto;
use rss_names::{MOST_REPLICAS, ReplicaId};

/// The greatest number of a call at which a disk stops.
const LAST_STOP: u32 = 1_000_000;

/// What a command prints of a run.
#[derive(Clone, Copy, PartialEq, Eq)]
pub enum Form {
    /// The report.
    Plain,
    /// The report, and behind it the steps, so that the file with this tail can be replayed.
    Log,
    /// The report with one line of sums in the place of the lines of calls.
    Sum,
}

/// A command.
#[derive(Clone, Copy, PartialEq, Eq)]
pub enum Command {
    /// Makes the steps behind the file.
    Replay(Form),
    /// Makes the file's own steps, one stage after another.
    Serial(Form),
    /// Makes the steps behind the file, and gives what this replica handled to one on a disk that stops at
    /// the call of this number, and at none where it is 0.
    Disk(ReplicaId, u32),
}

/// The command that the words are, if they are one: its name, and behind it one option at the most, or the two
/// numbers of `disk`.
pub fn command_of(words: &[String]) -> Option<Command>
    ensures { MatchOption result
        (IsCommand (map string_bytes words.now) → ⊥)
        (λ command. IsCalled command (map string_bytes words.now)) }
{
    match words {
        [word] => command_named(word, Form::Plain),
        [word, option] => match form_named(option) {
            Some(form) => command_named(word, form),
            None => None,
        },
        [word, replica, stop] => disk_named(word, replica, stop),
        _ => None,
    }
}

// The command of this name in this form, if there is one.
fn command_named(word: &String, form: Form) -> Option<Command>
    ensures { MatchOption result
        (NamesNone (string_bytes word.now))
        (λ command. string_bytes word.now ∷ option_words form ≡ words_of command) }
{
    if word.as_str() == "replay" {
        Some(Command::Replay(form))
    } else if word.as_str() == "serial" {
        Some(Command::Serial(form))
    } else {
        None
    }
}

// The form that an option asks for, if it is one.
fn form_named(option: &String) -> Option<Form>
    ensures { MatchOption result
        (IsNoOption (string_bytes option.now))
        (λ form. string_bytes option.now ∷ [] ≡ option_words form) }
{
    if option.as_str() == "--log" {
        Some(Form::Log)
    } else if option.as_str() == "--sum" {
        Some(Form::Sum)
    } else {
        None
    }
}

// The command `disk` with these numbers, if the words are that: a replica from 1 to 7, and a call up to 1000000.
fn disk_named(word: &String, replica: &String, stop: &String) -> Option<Command>
    ensures { MatchOption result
        (IsNoDisk (string_bytes word.now ∷ string_bytes replica.now ∷ string_bytes stop.now ∷ []))
        (λ command. IsCalled command (string_bytes word.now ∷ string_bytes replica.now ∷ string_bytes stop.now ∷ [])) }
{
    if word.as_str() != "disk" {
        return None;
    }
    let replica = number_upto(replica.as_str(), u32::from(MOST_REPLICAS))?;
    let stop = number_upto(stop.as_str(), LAST_STOP)?;
    let replica = ReplicaId::new(replica as u8)?;
    Some(Command::Disk(replica, stop))
}
