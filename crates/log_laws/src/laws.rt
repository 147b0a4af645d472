//! The laws. They hold no code: each is the contract of a function that does nothing.

ghost use Rattle.log_laws.specs.Laws.{PoliciesArePrintable, PrintedLogsAreShort, PrintedLogsSplit, PrintedStepsAreRead};

/// A file without a line `%steps`, whose last line ends, and behind it that line and the text of steps: it
/// splits into just these two parts.
pub fn printed_logs_split()
    ensures { PrintedLogsSplit }
{}

/// The text of steps of the grammar is read as these steps and no other, and has no line that is off the grammar.
pub fn printed_steps_are_read()
    ensures { PrintedStepsAreRead }
{}

/// The text of as many steps of the grammar as a log can have is not longer than a step text may be.
pub fn printed_logs_are_short()
    ensures { PrintedLogsAreShort }
{}

/// Each step that the serial policy makes of a sound file is one that the grammar of step text has.
pub fn policies_are_printable()
    ensures { PoliciesArePrintable }
{}
