//! A source in memory.
ghost use Rattle.std.specs.Prelude.{◌≡◌, ◌↔◌, ◌<◌, ◌≤◌, Some, min, length, take, drop, vec_len, IsTrue, IsErr, IfOk, OnErr};
ghost use Rattle.std.specs.Io.{ReadsAtMost};
ghost use Rattle.std.specs.Io.KnownBytes.{ReadConsumes};
ghost use Rattle.rss_io.specs.Faults.{HasCause};
ghost use Rattle.rss_io.specs.Memory.{Input, no_calls, is_listed, after_read, after_failed_read};

use crate::calls::Schedule;
use crate::failed::Failed;
use crate::source::Source;
use std::alloc::{AllocError, Global};
use std::marker::Model;

/// A source of given bytes, of which chosen calls fail. It tells what is left.
#[derive(Drop)]
pub struct MemSource {
    bytes: Vec<u8>,
    taken: usize,
    piece: usize,
    calls: Schedule,
}

impl Model for MemSource {
    ghost Value = { Input };

    ghost view = { λ s.
        record { bytes = drop s.taken s.bytes.items; piece = s.piece; calls = s.calls } };

    ghost invariant = { λ s. (s.taken ≤ vec_len s.bytes) × (0 < s.piece) };
}

impl MemSource {
    /// A source of these bytes that gives at most `piece` of them, which is positive, in a call. The
    /// calls with the numbers in `fails`, counted from 1, fail.
    ///
    /// # Errors
    ///
    /// `AllocError`, where memory lacks.
    pub fn new(
        alloc: Global,
        bytes: &[u8],
        piece: usize,
        fails: &[u32],
    ) -> Result<MemSource, AllocError>
        requires { 0 < piece }
        ensures { IfOk result (λ s. s ≡ record {
          bytes = bytes.now;
          piece = piece;
          calls = no_calls fails.now;
        }) }
    {
        let bytes = Vec::from_slice(alloc, bytes)?;
        let calls = Schedule::new(alloc, fails)?;
        Ok(MemSource {
            bytes,
            taken: 0,
            piece,
            calls,
        })
    }
}

impl Source for MemSource {
    ghost left = { λ s. Some s.bytes };

    ghost source_faults = { λ s. s.calls.faults };

    fn read(&mut self, into: &mut [u8]) -> Result<usize, Failed>
        ensures bound { ReadsAtMost result into.new }
        ensures bytes { ReadConsumes (Some self.old.bytes) (Some self.new.bytes) result into.new }
        ensures cause { HasCause self.old.calls.faults self.new.calls.faults result }
        ensures listed { IsErr result ↔ IsTrue (is_listed self.old.calls) }
        ensures gives { IfOk result (λ n.
            n ≡ min (min self.old.piece (length into.old)) (length self.old.bytes)) }
        ensures succeeds { IfOk result (λ n. self.new ≡ after_read self.old n) }
        ensures fails { OnErr result (self.new ≡ after_failed_read self.old) }
    {
        self.calls.next()?;
        let count = copy_front(&self.bytes[self.taken..], into, self.piece);
        self.taken += count;
        Ok(count)
    }
}

// Copies as many bytes as both slices have, and at most `most`, from front to front.
fn copy_front(from: &[u8], into: &mut [u8], most: usize) -> usize
    ensures count { result ≡ min (min most (length into.old)) (length from.now) }
    ensures copied { take result into.new ≡ take result from.now }
{
    let count = most.min(into.len()).min(from.len());
    into[..count].copy_from_slice(&from[..count]);
    count
}
