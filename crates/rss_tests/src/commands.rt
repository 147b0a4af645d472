//! Commands over inputs in memory.

use rss_cli::top;
use rss_io::{MemSink, MemSource};
use std::alloc::{AllocError, Global};

/// A stage writes 5 to a register and reads it back.
pub const FORM: &str =
    "registers = [\"r\"]\n[[stage]]\nname = \"a\"\nscript = '''\nwrite r 5\nread v r\n'''\n";

/// What a command left: its exit code, and the bytes written.
#[derive(Drop)]
pub struct Left {
    pub code: u8,
    pub text: Vec<u8>,
}

/// The command over a source and a sink whose calls of these numbers fail; the sink takes at most
/// eight bytes a call.
pub fn run(
    alloc: Global,
    words: &[String],
    input: &str,
    source_fails: &[u32],
    sink_fails: &[u32],
) -> Result<Left, AllocError> {
    let mut source = MemSource::new(alloc, input.as_bytes(), 4096, source_fails)?;
    let mut sink = MemSink::new(alloc, 8, sink_fails)?;
    let status = top(alloc, words, &mut source, &mut sink);
    let text = Vec::from_slice(alloc, sink.bytes())?;
    Ok(Left {
        code: status.code(),
        text,
    })
}

/// `replay` of an input.
pub fn replay(
    alloc: Global,
    input: &str,
    source_fails: &[u32],
    sink_fails: &[u32],
) -> Result<Left, AllocError> {
    let words = [String::from_str(alloc, "replay")?];
    run(alloc, &words, input, source_fails, sink_fails)
}

/// `serial` of an input, where no call fails.
pub fn serial(alloc: Global, input: &str) -> Result<Left, AllocError> {
    let words = [String::from_str(alloc, "serial")?];
    run(alloc, &words, input, &[], &[])
}
