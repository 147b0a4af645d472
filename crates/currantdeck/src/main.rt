//! Currantdeck: replays the steps of a pipeline over registers kept by quorums, and reports every
//! call at its place in the one order. `rss_cli` says what it reads and writes.
#![tactic(auto)]

use rss_cli::{Status, top};
use rss_io::{StdSink, StdSource};
use std::alloc::Global;
use std::process::ExitCode;
use std::rt::Env;
use std::{env, io};

fn main(rt: HostRuntime) -> ExitCode {
    let mut source = StdSource::new(rt.stdin());
    let mut sink = StdSink::new(rt.stdout());
    let status = match words(&rt, rt.alloc()) {
        Ok(words) => top(rt.alloc(), words.as_slice(), &mut source, &mut sink),
        // Words that are no text are no command's.
        Err(error) if error.kind() == io::ErrorKind::InvalidData => {
            top(rt.alloc(), &[], &mut source, &mut sink)
        }
        Err(_) => Status::OutOfMemory,
    };
    ExitCode::from(status.code())
}

// The words of the command, after the program's own name.
fn words<R: Env + AllocGlobal>(rt: &R, alloc: Global) -> io::Result<Vec<String>> {
    let mut words = Vec::new(alloc);
    for word in env::args(rt)?.skip(1) {
        words.push(word)?;
    }
    Ok(words)
}
