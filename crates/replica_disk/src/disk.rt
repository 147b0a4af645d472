//! A disk.

ghost use Rattle.std.specs.Prelude.{◌≡◌, ◌+◌, ◌<◌, ◌≤◌, ℕ, length, slice_index, OnOk, OnErr};
ghost use Rattle.rss_io.specs.Faults.{HasCause, one_more};
ghost use Rattle.replica_disk.specs.Disks.{IsDurable, IsImage, IsOverwritten, LooseWithin, with_range};

use rss_io::Failed;

/// A disk of a fixed size that may stop at any write or sync.
///
/// A contract sees the bytes that a read gives, and which places are loose: written since the last
/// sync that succeeded. A stop between two calls leaves the same bytes wherever nothing is loose,
/// and anything where something is. Every write and sync may fail, and then leave anything that a
/// stop in that call may leave: so what a function generic in the disk ensures at `Err` holds of a
/// stop at each of its writes and syncs.
pub trait Disk {
    ghost use Rattle.std.specs.Prelude.{ℕ, List, Bool};

    // What a read gives.
    ghost bytes: { Self → List ℕ };

    // Where a stop may leave anything.
    ghost loose: { Self → ℕ → Bool };

    // How many calls have failed: it never falls.
    ghost disk_faults: { Self → ℕ };

    // How many writes and syncs were called.
    ghost made: { Self → ℕ };

    // Which disk it is: a number that no call changes.
    ghost identity: { Self → ℕ };

    /// How many bytes the disk has.
    fn size(&self) -> u32
        ensures { result ≡ length (bytes self.now) };

    /// Reads the bytes from a place on that fill `into`.
    ///
    /// # Errors
    ///
    /// `Failed` comes only where the count of faults rose in this call. What `into` then holds is
    /// not said; the disk is as it was.
    fn read(&mut self, at: u32, into: &mut [u8]) -> Result<(), Failed>
        requires within { at + length into.old ≤ length (bytes self.old) }
        ensures read { OnOk result ((k : ℕ) → k < length into.old →
            slice_index into.new k ≡ slice_index (bytes self.old) (at + k)) }
        ensures bytes { bytes self.new ≡ bytes self.old }
        ensures loose { (p : ℕ) → loose self.new p ≡ loose self.old p }
        ensures made { made self.new ≡ made self.old }
        ensures identity { identity self.new ≡ identity self.old }
        ensures faultless { OnOk result (disk_faults self.new ≡ disk_faults self.old) }
        ensures cause { HasCause (disk_faults self.old) (disk_faults self.new) result };

    /// Writes bytes from a place on. A stop may leave anything there until a sync succeeds.
    ///
    /// # Errors
    ///
    /// `Failed` comes only where the count of faults rose in this call. The disk then has one of the
    /// contents that a stop in this call may leave.
    fn write(&mut self, at: u32, from: &[u8]) -> Result<(), Failed>
        requires within { at + length from.now ≤ length (bytes self.old) }
        ensures written { OnOk result (IsOverwritten (bytes self.old) (bytes self.new) at from.now) }
        ensures torn { OnErr result
            (IsImage (bytes self.old) (with_range (loose self.old) at (length from.now)) (bytes self.new)) }
        ensures loose { LooseWithin (loose self.new) (with_range (loose self.old) at (length from.now)) }
        ensures made { made self.new ≡ one_more (made self.old) }
        ensures identity { identity self.new ≡ identity self.old }
        ensures faultless { OnOk result (disk_faults self.new ≡ disk_faults self.old) }
        ensures cause { HasCause (disk_faults self.old) (disk_faults self.new) result };

    /// Makes all that was written stay: a stop then leaves what a read gives.
    ///
    /// # Errors
    ///
    /// `Failed` comes only where the count of faults rose in this call. The disk then has one of the
    /// contents that a stop in this call may leave.
    fn sync(&mut self) -> Result<(), Failed>
        ensures same { OnOk result (bytes self.new ≡ bytes self.old) }
        ensures durable { OnOk result (IsDurable (loose self.new)) }
        ensures torn { OnErr result (IsImage (bytes self.old) (loose self.old) (bytes self.new)) }
        ensures loose { LooseWithin (loose self.new) (loose self.old) }
        ensures made { made self.new ≡ one_more (made self.old) }
        ensures identity { identity self.new ≡ identity self.old }
        ensures faultless { OnOk result (disk_faults self.new ≡ disk_faults self.old) }
        ensures cause { HasCause (disk_faults self.old) (disk_faults self.new) result };
}
