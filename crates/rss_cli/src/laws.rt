//! The law of printed logs. It holds no code: it is the contract of a function that does nothing.

ghost use Rattle.rss_cli.specs.Again.{PrintedLogsReplay};

/// What `--log` prints replays. Let a file that ends its last line and has no line `%steps` be reported after
/// some steps, by `replay` or by `serial`. Then whatever `replay` answers, in any form, to that file and the
/// printed tail behind it, is the report of the same steps in that form, with the same status; and the input is
/// never too long.
pub fn printed_logs_replay()
    ensures { PrintedLogsReplay }
{}
