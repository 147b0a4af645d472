//! All that a source has left.
ghost use Rattle.std.specs.Prelude.{◌≡◌, ◌+◌, ◌<◌, ◌≤◌, length, vec_len, IfOk, OnOk, IfSome, IsErrOf};
ghost use Rattle.std.specs.Io.KnownBytes.{Consumes, IsAtEnd};
ghost use Rattle.rss_io.specs.Faults.{Rose};
ghost use Rattle.rss_io.specs.Pieces.{TakesExactly, TakesAtMost};

use crate::source::Source;
use std::alloc::{AllocError, Global};
use thiserror::Error;

/// Why a source was not read to its end.
#[derive(Clone, Copy, Debug, PartialEq, Eq, Error)]
pub enum ReadError {
    /// A call on the source failed.
    #[error("the source failed")]
    ReadFault,
    /// More bytes came than the limit allows.
    #[error("more bytes came than the limit allows")]
    TooLong,
    /// Memory lacks.
    #[error("out of memory")]
    OutOfMemory,
}

// How many bytes are asked for in one call at most.
const PIECE: usize = 4096;

/// Reads the source to its end; answers all bytes that came, which are at most `limit`.
///
/// # Errors
///
/// - `ReadFault` comes only where the source's count of faults rose.
/// - `TooLong` comes exactly where more than `limit` bytes came before the end; then `limit + 1`
///   bytes were taken.
/// - `OutOfMemory`, where memory lacks.
///
/// The bytes that were taken before a refusal are gone.
pub fn read_all<S: Source>(
    alloc: Global,
    source: &mut S,
    limit: usize,
) -> Result<Vec<u8>, ReadError>
    ensures whole { IfOk result (λ all. Consumes (S.left source.old) (S.left source.new) all.items) }
    ensures end { OnOk result (IsAtEnd (S.left source.new)) }
    ensures input { IfOk result (λ all. IfSome (S.left source.old) (λ input. all.items ≡ input)) }
    ensures within { IfOk result (λ all. vec_len all ≤ limit) }
    ensures long { IsErrOf result ReadError.TooLong →
        IfSome (S.left source.old) (λ input. limit < length input) }
    ensures long_takes { IsErrOf result ReadError.TooLong →
        TakesExactly (S.left source.old) (S.left source.new) (limit + 1) }
    ensures takes { TakesAtMost (S.left source.old) (S.left source.new) (limit + 1) }
    ensures later { S.source_faults source.old ≤ S.source_faults source.new }
    ensures cause { IsErrOf result ReadError.ReadFault →
        Rose (S.source_faults source.old) (S.source_faults source.new) }
{
    let mut taken = Vec::new(alloc);
    let mut piece = [0; PIECE];
    while taken.len() <= limit {
        let room = (limit - taken.len()).saturating_add(1).min(PIECE);
        match source.read(&mut piece[..room]) {
            Ok(0) => return Ok(taken),
            Ok(count) => taken
                .extend_from_slice(&piece[..count])
                .map_err(|_: AllocError| ReadError::OutOfMemory)?,
            Err(_) => return Err(ReadError::ReadFault),
        }
    }
    Err(ReadError::TooLong)
}
