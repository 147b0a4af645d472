//! How a cell of a disk is read, and how it is written in three steps.

ghost use Rattle.std.specs.Prelude.{◌≡◌, ◌+◌, ◌*◌, ◌==◌, ◌<◌, ◌≤◌, ℕ, true, false, [], ◌∷◌, length, slice_index, IfOk, OnOk, OnErr, if◌then◌else◌};
ghost use Rattle.carstamps.specs.Stamp.{stamp_lt};
ghost use Rattle.rss_io.specs.Faults.{HasCause};
ghost use Rattle.replica_disk.specs.Disks.{IsDurable, IsOverwritten, LeavesWithin, SameOutside, MadeCalls};
ghost use Rattle.replica_disk.specs.Cells.{cell_at, content_at};
ghost use Rattle.replica_disk.specs.Registers.{IsShut, IsFilled, IsOpened, IsWritten, LeavesCell};

use crate::disk::Disk;
use crate::layout::{RegisterCell, cell_of, content_bytes};
use rss_io::Failed;
use rss_wire::RegReply;

/// The cell at a place.
///
/// # Errors
///
/// `Failed` comes only where the disk's count of faults rose; the disk is as it was.
pub fn read_cell<D: Disk>(disk: &mut D, at: u32) -> Result<RegisterCell, Failed>
    requires within { at + 32 ≤ length (D.bytes disk.old) }
    ensures cell { IfOk result (λ cell. cell ≡ cell_at (D.bytes disk.old) at) }
    ensures bytes { D.bytes disk.new ≡ D.bytes disk.old }
    ensures loose { (p : ℕ) → D.loose disk.new p ≡ D.loose disk.old p }
    ensures made { D.made disk.new ≡ D.made disk.old }
    ensures identity { D.identity disk.new ≡ D.identity disk.old }
    ensures faultless { OnOk result (D.disk_faults disk.new ≡ D.disk_faults disk.old) }
    ensures cause { HasCause (D.disk_faults disk.old) (D.disk_faults disk.new) result }
{
    let mut bytes = [0u8; 32];
    disk.read(at, &mut bytes)?;
    Ok(cell_of(&bytes))
}

// Writes bytes on a disk of which nothing is loose, and makes them stay. A stop in between leaves
// the bytes outside as they were.
#[tactic(auto, using(crate::proofs::Images::stops))]
fn put_down<D: Disk>(disk: &mut D, at: u32, from: &[u8]) -> Result<(), Failed>
    requires within { at + length from.now ≤ length (D.bytes disk.old) }
    requires durable { IsDurable (D.loose disk.old) }
    ensures written { OnOk result (IsOverwritten (D.bytes disk.old) (D.bytes disk.new) at from.now) }
    ensures durable { OnOk result (IsDurable (D.loose disk.new)) }
    ensures stopped { OnErr result
        (LeavesWithin (D.bytes disk.old) (D.bytes disk.new) (D.loose disk.new) at (length from.now)) }
    ensures made { OnOk result (MadeCalls (D.made disk.old) (D.made disk.new) 2) }
    ensures made_at_most { D.made disk.new ≤ D.made disk.old + 2 }
    ensures identity { D.identity disk.new ≡ D.identity disk.old }
    ensures faultless { OnOk result (D.disk_faults disk.new ≡ D.disk_faults disk.old) }
    ensures cause { HasCause (D.disk_faults disk.old) (D.disk_faults disk.new) result }
{
    disk.write(at, from)?;
    disk.sync()
}

// Closes the gate of a cell where it is open, and makes that stay; where it is closed already,
// nothing is written. A stop in between leaves the gate in any state, and all else as it was.
#[tactic(auto, using(crate::proofs::Steps::steps))]
fn close_gate<D: Disk>(disk: &mut D, at: u32, is_open: bool) -> Result<(), Failed>
    requires within { at + 32 ≤ length (D.bytes disk.old) }
    requires durable { IsDurable (D.loose disk.old) }
    requires gate { is_open ≡ (slice_index (D.bytes disk.old) at == 1) }
    ensures shut { OnOk result (IsShut (D.bytes disk.old) (D.bytes disk.new) at) }
    ensures durable { OnOk result (IsDurable (D.loose disk.new)) }
    ensures stopped { OnErr result (LeavesWithin (D.bytes disk.old) (D.bytes disk.new) (D.loose disk.new) at 1) }
    ensures was_open { OnErr result (is_open ≡ true) }
    ensures made { OnOk result (MadeCalls (D.made disk.old) (D.made disk.new) (if is_open then 2 else 0)) }
    ensures made_at_most { D.made disk.new ≤ D.made disk.old + (if is_open then 2 else 0) }
    ensures identity { D.identity disk.new ≡ D.identity disk.old }
    ensures faultless { OnOk result (D.disk_faults disk.new ≡ D.disk_faults disk.old) }
    ensures cause { HasCause (D.disk_faults disk.old) (D.disk_faults disk.new) result }
{
    if is_open {
        put_down(disk, at, &[0])
    } else {
        Ok(())
    }
}

// Writes a content into a cell whose gate is closed, and makes it stay. A stop in between leaves any
// bytes there, and all else as it was.
#[tactic(auto, using(crate::proofs::Steps::steps))]
fn fill<D: Disk>(disk: &mut D, at: u32, new: RegReply) -> Result<(), Failed>
    requires within { at + 32 ≤ length (D.bytes disk.old) }
    requires durable { IsDurable (D.loose disk.old) }
    requires shut { (slice_index (D.bytes disk.old) at == 1) ≡ false }
    ensures filled { OnOk result (IsFilled (D.bytes disk.old) (D.bytes disk.new) at new) }
    ensures durable { OnOk result (IsDurable (D.loose disk.new)) }
    ensures stopped { OnErr result
        (LeavesWithin (D.bytes disk.old) (D.bytes disk.new) (D.loose disk.new) (at + 8) 24) }
    ensures made { OnOk result (MadeCalls (D.made disk.old) (D.made disk.new) 2) }
    ensures made_at_most { D.made disk.new ≤ D.made disk.old + 2 }
    ensures identity { D.identity disk.new ≡ D.identity disk.old }
    ensures faultless { OnOk result (D.disk_faults disk.new ≡ D.disk_faults disk.old) }
    ensures cause { HasCause (D.disk_faults disk.old) (D.disk_faults disk.new) result }
{
    // for its clause alone: the size fits 32 bits, and so does each place
    let _size = disk.size();
    put_down(disk, at + 8, &content_bytes(new))
}

// Opens the gate of a cell, and makes that stay. A stop in between leaves the gate in any state, and
// all else as it was.
#[tactic(auto, using(crate::proofs::Steps::steps))]
fn open_gate<D: Disk>(disk: &mut D, at: u32) -> Result<(), Failed>
    requires within { at + 32 ≤ length (D.bytes disk.old) }
    requires durable { IsDurable (D.loose disk.old) }
    ensures opened { OnOk result (IsOpened (D.bytes disk.old) (D.bytes disk.new) at) }
    ensures durable { OnOk result (IsDurable (D.loose disk.new)) }
    ensures stopped { OnErr result (LeavesWithin (D.bytes disk.old) (D.bytes disk.new) (D.loose disk.new) at 1) }
    ensures made { OnOk result (MadeCalls (D.made disk.old) (D.made disk.new) 2) }
    ensures made_at_most { D.made disk.new ≤ D.made disk.old + 2 }
    ensures identity { D.identity disk.new ≡ D.identity disk.old }
    ensures faultless { OnOk result (D.disk_faults disk.new ≡ D.disk_faults disk.old) }
    ensures cause { HasCause (D.disk_faults disk.old) (D.disk_faults disk.new) result }
{
    put_down(disk, at, &[1])
}

/// Puts a content into a cell: closes its gate where it is open, writes the content, and opens the
/// gate, each of which stays before the next begins.
///
/// # Errors
///
/// `Failed` comes only where the disk's count of faults rose. Whatever a stop then leaves, the cell
/// is closed, as it was, or open with the new content.
#[tactic(auto, using(crate::proofs::Steps::steps))]
pub fn write_cell<D: Disk>(
    disk: &mut D,
    at: u32,
    is_open: bool,
    new: RegReply,
) -> Result<(), Failed>
    requires within { at + 32 ≤ length (D.bytes disk.old) }
    requires durable { IsDurable (D.loose disk.old) }
    requires gate { is_open ≡ (slice_index (D.bytes disk.old) at == 1) }
    ensures written { OnOk result (IsWritten (D.bytes disk.old) (D.bytes disk.new) at new) }
    ensures durable { OnOk result (IsDurable (D.loose disk.new)) }
    ensures stopped { OnErr result (LeavesCell (D.bytes disk.old) (D.bytes disk.new) (D.loose disk.new) at new) }
    ensures made { OnOk result (MadeCalls (D.made disk.old) (D.made disk.new) (if is_open then 6 else 4)) }
    ensures made_at_most { D.made disk.new ≤ D.made disk.old + (if is_open then 6 else 4) }
    ensures identity { D.identity disk.new ≡ D.identity disk.old }
    ensures faultless { OnOk result (D.disk_faults disk.new ≡ D.disk_faults disk.old) }
    ensures cause { HasCause (D.disk_faults disk.old) (D.disk_faults disk.new) result }
{
    close_gate(disk, at, is_open)?;
    fill(disk, at, new)?;
    open_gate(disk, at)?;
    Ok(())
}
