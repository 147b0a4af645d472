//! Faults of the words and of the input.

use pipeline_file::FileFault;
use rss_machine::StepRefusal;

/// Why there is no report.
#[derive(Clone, Copy, PartialEq, Eq)]
pub enum Fault {
    /// The words are no command.
    Usage,
    /// The file has this fault first.
    File(FileFault),
    /// The input, or the step text, is longer than its limit.
    TooLong,
    /// The step of this number, counted from 1, goes off the grammar at this column, counted from 1.
    OffGrammar { number: u64, column: u64 },
    /// The step of this number, counted from 1, is refused by the machine.
    Refused { number: u64, cause: StepRefusal },
    /// The service `reg` has no replica of this number.
    NoReplica(u64),
}
