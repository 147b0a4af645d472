//! A sink in memory.
ghost use Rattle.std.specs.Prelude.{◌≡◌, ◌<◌, [], Some, min, length, take, IsTrue, IsErr, IfOk, OnErr};
ghost use Rattle.std.specs.Io.KnownBytes.{WriteAppends};
ghost use Rattle.rss_io.specs.Faults.{HasCause};
ghost use Rattle.rss_io.specs.Memory.{Output, no_calls, is_listed, after_write, after_failed_write};
ghost use Rattle.rss_io.specs.Pieces.{TakesSome};

use crate::calls::Schedule;
use crate::failed::Failed;
use crate::sink::Sink;
use std::alloc::{AllocError, Global};
use std::marker::Model;

/// A sink that keeps what was written, of which chosen calls fail. It tells what was written.
#[derive(Drop)]
pub struct MemSink {
    bytes: Vec<u8>,
    piece: usize,
    calls: Schedule,
}

impl Model for MemSink {
    ghost Value = { Output };

    ghost view = { λ s. record { bytes = s.bytes.items; piece = s.piece; calls = s.calls } };

    ghost invariant = { λ s. 0 < s.piece };
}

impl MemSink {
    /// An empty sink that takes at most `piece` bytes, which is positive, in a call. The calls with
    /// the numbers in `fails`, counted from 1, fail, and so does a call for which memory lacks.
    ///
    /// # Errors
    ///
    /// `AllocError`, where memory lacks.
    pub fn new(alloc: Global, piece: usize, fails: &[u32]) -> Result<MemSink, AllocError>
        requires { 0 < piece }
        ensures { IfOk result (λ s. s ≡ record {
          bytes = [];
          piece = piece;
          calls = no_calls fails.now;
        }) }
    {
        let calls = Schedule::new(alloc, fails)?;
        Ok(MemSink {
            bytes: Vec::new(alloc),
            piece,
            calls,
        })
    }

    /// What was written.
    pub fn bytes(&self) -> &[u8]
        ensures { result.now ≡ self.now.bytes }
    {
        self.bytes.as_slice()
    }
}

impl Sink for MemSink {
    ghost written = { λ s. Some s.bytes };

    ghost sink_faults = { λ s. s.calls.faults };

    fn write(&mut self, from: &[u8]) -> Result<usize, Failed>
        ensures some { TakesSome result from.now }
        ensures bytes { WriteAppends (Some self.old.bytes) (Some self.new.bytes) result from.now }
        ensures cause { HasCause self.old.calls.faults self.new.calls.faults result }
        ensures listed { IsTrue (is_listed self.old.calls) → IsErr result }
        ensures takes { IfOk result (λ n. n ≡ min self.old.piece (length from.now)) }
        ensures succeeds { IfOk result (λ n. self.new ≡ after_write self.old (take n from.now)) }
        ensures fails { OnErr result (self.new ≡ after_failed_write self.old) }
    {
        self.calls.next()?;
        let count = self.piece.min(from.len());
        match self.bytes.extend_from_slice(&from[..count]) {
            Ok(()) => Ok(count),
            Err(_) => Err(self.calls.fault()),
        }
    }
}
