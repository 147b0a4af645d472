//! What may be read from.
ghost use Rattle.std.specs.Prelude.{ℕ, List, Option};
ghost use Rattle.std.specs.Io.{ReadsAtMost};
ghost use Rattle.std.specs.Io.KnownBytes.{ReadConsumes};
ghost use Rattle.rss_io.specs.Faults.{HasCause};

use crate::failed::Failed;

/// Bytes that come from outside, in order, until their end.
pub trait Source {
    // The bytes that are left, where the source tells them.
    ghost left: { Self → Option (List ℕ) };

    // How many calls have failed: it never falls.
    ghost source_faults: { Self → ℕ };

    /// Takes bytes off the front of what is left and puts them at the front of `into`; answers how
    /// many, at most the length of `into`. For an `into` that is not empty, `Ok(0)` is the end:
    /// nothing is left.
    ///
    /// # Errors
    ///
    /// `Failed` comes only where the count of faults rose in this call; no byte is then taken.
    fn read(&mut self, into: &mut [u8]) -> Result<usize, Failed>
        ensures bound { ReadsAtMost result into.new }
        ensures bytes { ReadConsumes (left self.old) (left self.new) result into.new }
        ensures cause { HasCause (source_faults self.old) (source_faults self.new) result };
}
