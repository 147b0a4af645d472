//! The top call: words and an input in, a text and a status out.

ghost use Rattle.std.specs.Prelude.{◌≡◌, ◌<◌, ◌≤◌, true, map, length, IfOk, IfSome, IsTrue, MatchResult};
ghost use Rattle.std.specs.Io.KnownBytes.{IsAtEnd, Keeps};
ghost use Rattle.std.specs.String.{string_bytes};
ghost use Rattle.rss_io.specs.Faults.{Rose};
ghost use Rattle.rss_cli.specs.Answer.{Wrote, WroteUsage, IsAnswer, IsUsageAnswer, is_answer, is_report, input_limit};
ghost use Rattle.rss_cli.specs.Generated.{WroteGenerated};
ghost use Rattle.command_words.specs.Generated.{IsGen, IsNoGen};
ghost use Rattle.command_words.specs.Words.{IsCommand};
ghost use Rattle.rss_machine.specs.Generated.{generated_file};

use crate::answer::{Answer, answer_of, fault_answer};
use crate::fault::Fault;
use crate::generated::generated_answer;
use crate::status::Status;
use command_words::{command_of, gen_number};
use rss_io::{ReadError, Sink, Source, read_all, write_all};
use std::alloc::{AllocError, Global};

/// The longest input, in bytes: a file of 1,048,576, the line `%steps`, and step text of 16,777,216.
const LONGEST_INPUT: usize = 17_825_799;

/// The command of these words: reads the source, and writes what is told of the run, or the line of a fault,
/// to the sink. `gen` with a number reads nothing and writes the generated file of that number. The whole text
/// is made before its first byte is written. Other words are refused before a byte is read.
///
/// Today every command is served by `still_top`.
pub fn top<S: Source, K: Sink>(
    alloc: Global,
    words: &[String],
    source: &mut S,
    sink: &mut K,
) -> Status
    ensures written { IfSome (S.left source.old) (λ input.
        Wrote (K.written sink.old) (K.written sink.new) (map string_bytes words.now) input result) }
    ensures read_to_end { IsNoGen (map string_bytes words.now) → IsTrue (is_report result) → IsAtEnd (S.left source.new) }
    ensures read { result ≡ Status.ReadFault →
        IsCommand (map string_bytes words.now) × Rose (S.source_faults source.old) (S.source_faults source.new) }
    ensures write { result ≡ Status.WriteFault → Rose (K.sink_faults sink.old) (K.sink_faults sink.new) }
    ensures unread { (IsCommand (map string_bytes words.now) → ⊥) → Keeps (S.left source.old) (S.left source.new) }
    ensures usage { (IsCommand (map string_bytes words.now) → ⊥) → IsNoGen (map string_bytes words.now) →
        WroteUsage (K.written sink.old) (K.written sink.new) result }
    ensures generated { (n : _) → IsGen (map string_bytes words.now) n →
        WroteGenerated (K.written sink.old) (K.written sink.new) n result }
{
    still_top(alloc, words, source, sink)
}

/// The commands that wait for nobody: `replay` and `serial`, each with an option, `disk` with a replica and a call
/// to stop at, and `gen` with a number. Other words are refused before a byte is read.
pub fn still_top<S: Source, K: Sink>(
    alloc: Global,
    words: &[String],
    source: &mut S,
    sink: &mut K,
) -> Status
    ensures written { IfSome (S.left source.old) (λ input.
        Wrote (K.written sink.old) (K.written sink.new) (map string_bytes words.now) input result) }
    ensures read_to_end { IsNoGen (map string_bytes words.now) → IsTrue (is_report result) → IsAtEnd (S.left source.new) }
    ensures read { result ≡ Status.ReadFault →
        IsCommand (map string_bytes words.now) × Rose (S.source_faults source.old) (S.source_faults source.new) }
    ensures write { result ≡ Status.WriteFault → Rose (K.sink_faults sink.old) (K.sink_faults sink.new) }
    ensures unread { (IsCommand (map string_bytes words.now) → ⊥) → Keeps (S.left source.old) (S.left source.new) }
    ensures usage { (IsCommand (map string_bytes words.now) → ⊥) → IsNoGen (map string_bytes words.now) →
        WroteUsage (K.written sink.old) (K.written sink.new) result }
    ensures generated { (n : _) → IsGen (map string_bytes words.now) n →
        WroteGenerated (K.written sink.old) (K.written sink.new) n result }
{
    match respond(alloc, words, source) {
        Ok(answer) => match write_all(sink, answer.text.as_slice()) {
            Ok(()) => answer.status,
            Err(_) => Status::WriteFault,
        },
        Err(Halt::ReadFault) => Status::ReadFault,
        Err(Halt::OutOfMemory) => Status::OutOfMemory,
    }
}

// Why there is no answer.
#[derive(Clone, Copy, PartialEq, Eq)]
enum Halt {
    ReadFault,
    OutOfMemory,
}

// The answer to the words and the input, of which no byte is written yet.
fn respond<S: Source>(alloc: Global, words: &[String], source: &mut S) -> Result<Answer, Halt>
    ensures answer { IfOk result (λ a. IfSome (S.left source.old) (λ input.
        IsAnswer (map string_bytes words.now) input a.text.items a.status)) }
    ensures status { IfOk result (λ a. is_answer a.status ≡ true) }
    ensures read_to_end { IsNoGen (map string_bytes words.now) →
        IfOk result (λ a. IsTrue (is_report a.status) → IsAtEnd (S.left source.new)) }
    ensures read { result ≡ Err Halt.ReadFault →
        IsCommand (map string_bytes words.now) × Rose (S.source_faults source.old) (S.source_faults source.new) }
    ensures unread { (IsCommand (map string_bytes words.now) → ⊥) → Keeps (S.left source.old) (S.left source.new) }
    ensures usage { (IsCommand (map string_bytes words.now) → ⊥) → IsNoGen (map string_bytes words.now) →
        MatchResult result (λ a. IsUsageAnswer a.text.items a.status) (λ e. e ≡ Halt.OutOfMemory) }
    ensures generated { (n : _) → IsGen (map string_bytes words.now) n →
        MatchResult result (λ a. (a.text.items ≡ generated_file n) × (a.status ≡ Status.Done)) (λ e. e ≡ Halt.OutOfMemory) }
{
    if let Some(n) = gen_number(words) {
        return made(generated_answer(alloc, n));
    }
    let Some(command) = command_of(words) else {
        return made(fault_answer(alloc, Fault::Usage, Status::Usage));
    };
    match read_all(alloc, source, LONGEST_INPUT) {
        Ok(input) => made(answer_of(alloc, command, input.as_slice())),
        Err(ReadError::TooLong) => { made(fault_answer(alloc, Fault::TooLong, Status::File)) }
        Err(ReadError::ReadFault) => Err(Halt::ReadFault),
        Err(ReadError::OutOfMemory) => Err(Halt::OutOfMemory),
    }
}

// An answer, where there was memory for it.
fn made(answer: Result<Answer, AllocError>) -> Result<Answer, Halt>
    ensures same { IfOk result (λ a. answer ≡ Ok a) }
    ensures cause { result ≡ Err Halt.ReadFault → ⊥ }
{
    match answer {
        Ok(answer) => Ok(answer),
        Err(_) => Err(Halt::OutOfMemory),
    }
}
