//! Statuses: how a command ended.

ghost use Rattle.std.specs.Prelude.{◌≡◌};
ghost use Rattle.rss_cli.specs.Statuses.{status_code, status_of};

use rss_machine::Ending;

/// How a command ended.
#[derive(Clone, Copy, PartialEq, Eq)]
pub enum Status {
    /// All stages are settled, and none was killed or unavailable; or a file was generated, or a disk told of.
    Done,
    /// There is a step to come.
    Unfinished,
    /// The log is full.
    Limit,
    /// Nothing is enabled.
    Stuck,
    /// All stages are settled, and some was killed or unavailable.
    Hurt,
    /// The words are no command.
    Usage,
    /// The file was refused, or has no such replica.
    File,
    /// A step was off the grammar, or was refused.
    BadStep,
    /// The source failed; nothing was written.
    ReadFault,
    /// The sink failed; the front of the text may be written.
    WriteFault,
    /// Memory was wanting; nothing was written.
    OutOfMemory,
}

impl Status {
    /// The status of a run that was reported.
    pub fn of(ending: Ending) -> Status
        ensures { result ≡ status_of ending }
    {
        match ending {
            Ending::Done => Status::Done,
            Ending::Unfinished => Status::Unfinished,
            Ending::Limit => Status::Limit,
            Ending::Stuck => Status::Stuck,
            Ending::Hurt => Status::Hurt,
        }
    }

    /// The number with which the program exits.
    pub fn code(&self) -> u8
        ensures { result ≡ status_code self.now }
    {
        match self {
            Status::Done => 0,
            Status::Unfinished => 1,
            Status::Usage | Status::File | Status::BadStep => 2,
            Status::Limit => 3,
            Status::Stuck => 4,
            Status::Hurt => 5,
            Status::ReadFault => 6,
            Status::WriteFault => 7,
            Status::OutOfMemory => 10,
        }
    }
}
