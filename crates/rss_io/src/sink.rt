//! What may be written to.
ghost use Rattle.std.specs.Prelude.{ℕ, List, Option};
ghost use Rattle.std.specs.Io.KnownBytes.{WriteAppends};
ghost use Rattle.rss_io.specs.Faults.{HasCause};
ghost use Rattle.rss_io.specs.Pieces.{TakesSome};

use crate::failed::Failed;

/// Bytes that go outside, in order.
pub trait Sink {
    // The bytes that were written, where the sink tells them.
    ghost written: { Self → Option (List ℕ) };

    // How many calls have failed: it never falls.
    ghost sink_faults: { Self → ℕ };

    /// Writes bytes of the front of `from` behind what was written; answers how many, at most the
    /// length of `from`, and at least one unless `from` is empty.
    ///
    /// # Errors
    ///
    /// `Failed` comes only where the count of faults rose in this call; no byte is then written.
    fn write(&mut self, from: &[u8]) -> Result<usize, Failed>
        ensures some { TakesSome result from.now }
        ensures bytes { WriteAppends (written self.old) (written self.new) result from.now }
        ensures cause { HasCause (sink_faults self.old) (sink_faults self.new) result };
}
