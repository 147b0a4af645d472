//! A whole text to a sink.
ghost use Rattle.std.specs.Prelude.{◌≤◌, OnOk, OnErr};
ghost use Rattle.std.specs.Io.KnownBytes.{Appends};
ghost use Rattle.rss_io.specs.Faults.{Rose};
ghost use Rattle.rss_io.specs.Pieces.{AppendsFront};

use crate::sink::Sink;
use thiserror::Error;

/// A call on the sink failed before all bytes were written.
#[derive(Clone, Copy, Debug, PartialEq, Eq, Error)]
#[error("the sink failed")]
pub struct WriteFault;

/// Writes all bytes to the sink, behind what was written.
///
/// # Errors
///
/// `WriteFault` comes only where the sink's count of faults rose. A front of the bytes is then
/// written, and nothing else.
pub fn write_all<K: Sink>(sink: &mut K, bytes: &[u8]) -> Result<(), WriteFault>
    ensures all { OnOk result (Appends (K.written sink.old) (K.written sink.new) bytes.now) }
    ensures front { AppendsFront (K.written sink.old) (K.written sink.new) bytes.now }
    ensures later { K.sink_faults sink.old ≤ K.sink_faults sink.new }
    ensures cause { OnErr result (Rose (K.sink_faults sink.old) (K.sink_faults sink.new)) }
{
    let mut count = 0;
    while count < bytes.len() {
        match sink.write(&bytes[count..]) {
            Ok(more) => count += more,
            Err(_) => return Err(WriteFault),
        }
    }
    Ok(())
}
