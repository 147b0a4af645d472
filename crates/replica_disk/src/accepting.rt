//! How registers on a disk are replaced.

ghost use Rattle.std.specs.Prelude.{◌≡◌, ◌+◌, ◌*◌, ◌==◌, ◌≤◌, [], ◌∷◌, true, false, min, length, slice_index, OnOk, OnErr};
ghost use Rattle.carstamps.specs.Stamp.{stamp_lt};
ghost use Rattle.rss_io.specs.Faults.{HasCause};
ghost use Rattle.rss_tables.specs.ReplicaRow.{accept as accepted, accept_all as all_accepted, dep_cell};
ghost use Rattle.replica_disk.specs.Disks.{IsDurable, MadeCalls};
ghost use Rattle.replica_disk.specs.Cells.{cell_at, register_at, gates_at, first_holds as first_has_it};
ghost use Rattle.replica_disk.specs.Registers.{Holds, IsSettled, LeavesEither, gates_of, replace_cost};
ghost use Rattle.replica_disk.specs.Accepts.{OpensInPart, accept_cost, cost_all, replaces, times_accepted, times_all};

use crate::disk::Disk;
use crate::layout::{REGISTER_SIZE, first_holds};
use crate::placing::{read_cell, write_cell};
use causal_context::Dep;
use rss_io::Failed;
use rss_wire::RegReply;

// Replaces what a register holds by a content of a greater stamp, in the cell that is not the current
// one. Where the disk stops, the register holds either.
#[tactic(auto, using(crate::proofs::Blocks::read_stops))]
fn replace<D: Disk>(disk: &mut D, index: u16, new: RegReply) -> Result<(), Failed>
    requires within { 64 * index + 64 ≤ length (D.bytes disk.old) }
    requires durable { IsDurable (D.loose disk.old) }
    requires above { stamp_lt (register_at (D.bytes disk.old) index).stamp new.stamp ≡ true }
    ensures holds { OnOk result (Holds (D.bytes disk.old) (D.bytes disk.new) index new) }
    ensures gates { OnOk result
        (gates_at (D.bytes disk.new) index ≡ min 2 (gates_at (D.bytes disk.old) index + 1)) }
    ensures durable { OnOk result (IsDurable (D.loose disk.new)) }
    ensures stopped { OnErr result
        (LeavesEither (D.bytes disk.old) (D.bytes disk.new) (D.loose disk.new) index new) }
    ensures made { OnOk result (MadeCalls (D.made disk.old) (D.made disk.new)
        (replace_cost (gates_at (D.bytes disk.old) index))) }
    ensures made_at_most { D.made disk.new ≤ D.made disk.old + replace_cost (gates_at (D.bytes disk.old) index) }
    ensures identity { D.identity disk.new ≡ D.identity disk.old }
    ensures faultless { OnOk result (D.disk_faults disk.new ≡ D.disk_faults disk.old) }
    ensures cause { HasCause (D.disk_faults disk.old) (D.disk_faults disk.new) result }
{
    let at = REGISTER_SIZE * u32::from(index);
    let first = read_cell(disk, at)?;
    let second = read_cell(disk, at + 32)?;
    if first_holds(first, second) {
        replace_second(disk, index, at, second.is_open, new)
    } else {
        replace_first(disk, index, at, first.is_open, new)
    }
}

// Replaces what the register whose cells are from a place on holds, where its first cell is not the
// current one.
#[tactic(auto, using(crate::proofs::Blocks::first_cell))]
fn replace_first<D: Disk>(
    disk: &mut D,
    index: u16,
    at: u32,
    is_open: bool,
    new: RegReply,
) -> Result<(), Failed>
    requires within { 64 * index + 64 ≤ length (D.bytes disk.old) }
    requires durable { IsDurable (D.loose disk.old) }
    requires above { stamp_lt (register_at (D.bytes disk.old) index).stamp new.stamp ≡ true }
    requires place { at ≡ 64 * index }
    requires gate { is_open ≡ (slice_index (D.bytes disk.old) (64 * index) == 1) }
    requires other { first_has_it (cell_at (D.bytes disk.old) (64 * index))
        (cell_at (D.bytes disk.old) (64 * index + 32)) ≡ false }
    ensures holds { OnOk result (Holds (D.bytes disk.old) (D.bytes disk.new) index new) }
    ensures gates { OnOk result
        (gates_at (D.bytes disk.new) index ≡ min 2 (gates_at (D.bytes disk.old) index + 1)) }
    ensures durable { OnOk result (IsDurable (D.loose disk.new)) }
    ensures stopped { OnErr result
        (LeavesEither (D.bytes disk.old) (D.bytes disk.new) (D.loose disk.new) index new) }
    ensures made { OnOk result (MadeCalls (D.made disk.old) (D.made disk.new)
        (replace_cost (gates_at (D.bytes disk.old) index))) }
    ensures made_at_most { D.made disk.new ≤ D.made disk.old + replace_cost (gates_at (D.bytes disk.old) index) }
    ensures identity { D.identity disk.new ≡ D.identity disk.old }
    ensures faultless { OnOk result (D.disk_faults disk.new ≡ D.disk_faults disk.old) }
    ensures cause { HasCause (D.disk_faults disk.old) (D.disk_faults disk.new) result }
{
    write_cell(disk, at, is_open, new)?;
    Ok(())
}

// Replaces what the register whose cells are from a place on holds, where its first cell is the
// current one.
#[tactic(auto, using(crate::proofs::Blocks::second_cell))]
fn replace_second<D: Disk>(
    disk: &mut D,
    index: u16,
    at: u32,
    is_open: bool,
    new: RegReply,
) -> Result<(), Failed>
    requires within { 64 * index + 64 ≤ length (D.bytes disk.old) }
    requires durable { IsDurable (D.loose disk.old) }
    requires above { stamp_lt (register_at (D.bytes disk.old) index).stamp new.stamp ≡ true }
    requires place { at ≡ 64 * index }
    requires gate { is_open ≡ (slice_index (D.bytes disk.old) (64 * index + 32) == 1) }
    requires current { first_has_it (cell_at (D.bytes disk.old) (64 * index))
        (cell_at (D.bytes disk.old) (64 * index + 32)) ≡ true }
    ensures holds { OnOk result (Holds (D.bytes disk.old) (D.bytes disk.new) index new) }
    ensures gates { OnOk result
        (gates_at (D.bytes disk.new) index ≡ min 2 (gates_at (D.bytes disk.old) index + 1)) }
    ensures durable { OnOk result (IsDurable (D.loose disk.new)) }
    ensures stopped { OnErr result
        (LeavesEither (D.bytes disk.old) (D.bytes disk.new) (D.loose disk.new) index new) }
    ensures made { OnOk result (MadeCalls (D.made disk.old) (D.made disk.new)
        (replace_cost (gates_at (D.bytes disk.old) index))) }
    ensures made_at_most { D.made disk.new ≤ D.made disk.old + replace_cost (gates_at (D.bytes disk.old) index) }
    ensures identity { D.identity disk.new ≡ D.identity disk.old }
    ensures faultless { OnOk result (D.disk_faults disk.new ≡ D.disk_faults disk.old) }
    ensures cause { HasCause (D.disk_faults disk.old) (D.disk_faults disk.new) result }
{
    write_cell(disk, at + 32, is_open, new)?;
    Ok(())
}

// Whether an accept replaces what a register holds: there is such a register, and the stamp is
// greater.
fn is_newer(held: &[RegReply], dep: &Dep) -> bool
    ensures { result ≡ replaces held.now dep.now }
{
    match held.get(dep.key.index as usize) {
        Some(cell) => dep.stamp.is_above(cell.stamp),
        None => false,
    }
}

// One accept: replaces what a register holds where the stamp is greater, on the disk and in memory.
#[tactic(auto, using(crate::proofs::Settled::leaves))]
fn accept<D: Disk>(disk: &mut D, held: &mut [RegReply], dep: &Dep) -> Result<(), Failed>
    requires settled { IsSettled (D.bytes disk.old) (D.loose disk.old) held.old }
    ensures accepted { OnOk result (held.new ≡ accepted held.old dep.now.key (dep_cell dep.now)) }
    ensures settled { OnOk result (IsSettled (D.bytes disk.new) (D.loose disk.new) held.new) }
    ensures times { OnOk result (gates_of (D.bytes disk.new) (length held.old)
        ≡ times_accepted held.old (gates_of (D.bytes disk.old) (length held.old)) dep.now) }
    ensures stopped { OnErr result
        (OpensInPart (D.bytes disk.new) (D.loose disk.new) held.old (dep.now ∷ [])) }
    ensures made { OnOk result (MadeCalls (D.made disk.old) (D.made disk.new)
        (accept_cost held.old (gates_of (D.bytes disk.old) (length held.old)) dep.now)) }
    ensures made_at_most { D.made disk.new ≤ D.made disk.old
        + accept_cost held.old (gates_of (D.bytes disk.old) (length held.old)) dep.now }
    ensures size { length (D.bytes disk.new) ≡ length (D.bytes disk.old) }
    ensures identity { D.identity disk.new ≡ D.identity disk.old }
    ensures faultless { OnOk result (D.disk_faults disk.new ≡ D.disk_faults disk.old) }
    ensures cause { HasCause (D.disk_faults disk.old) (D.disk_faults disk.new) result }
{
    if is_newer(held, dep) {
        store(disk, held, dep)
    } else {
        Ok(())
    }
}

// An accept that replaces what a register holds, first on the disk and then in memory.
#[tactic(auto, using(crate::proofs::Settled::accepts))]
fn store<D: Disk>(disk: &mut D, held: &mut [RegReply], dep: &Dep) -> Result<(), Failed>
    requires settled { IsSettled (D.bytes disk.old) (D.loose disk.old) held.old }
    requires newer { replaces held.old dep.now ≡ true }
    ensures accepted { OnOk result (held.new ≡ accepted held.old dep.now.key (dep_cell dep.now)) }
    ensures settled { OnOk result (IsSettled (D.bytes disk.new) (D.loose disk.new) held.new) }
    ensures times { OnOk result (gates_of (D.bytes disk.new) (length held.old)
        ≡ times_accepted held.old (gates_of (D.bytes disk.old) (length held.old)) dep.now) }
    ensures stopped { OnErr result
        (OpensInPart (D.bytes disk.new) (D.loose disk.new) held.old (dep.now ∷ [])) }
    ensures made { OnOk result (MadeCalls (D.made disk.old) (D.made disk.new)
        (accept_cost held.old (gates_of (D.bytes disk.old) (length held.old)) dep.now)) }
    ensures made_at_most { D.made disk.new ≤ D.made disk.old
        + accept_cost held.old (gates_of (D.bytes disk.old) (length held.old)) dep.now }
    ensures size { length (D.bytes disk.new) ≡ length (D.bytes disk.old) }
    ensures identity { D.identity disk.new ≡ D.identity disk.old }
    ensures faultless { OnOk result (D.disk_faults disk.new ≡ D.disk_faults disk.old) }
    ensures cause { HasCause (D.disk_faults disk.old) (D.disk_faults disk.new) result }
{
    let new = RegReply {
        value: dep.value,
        stamp: dep.stamp,
        writer: dep.writer,
    };
    replace(disk, dep.key.index, new)?;
    held[dep.key.index as usize] = new;
    Ok(())
}

/// Accepts each dependency in turn, on the disk and in memory.
///
/// # Errors
///
/// `Failed` comes only where the disk's count of faults rose. Whatever a stop then leaves opens to
/// the registers with some front of the dependencies accepted.
#[tactic(auto, using(crate::proofs::Settled::goes_on))]
pub fn accept_all<D: Disk>(disk: &mut D, held: &mut [RegReply], deps: &[Dep]) -> Result<(), Failed>
    requires settled { IsSettled (D.bytes disk.old) (D.loose disk.old) held.old }
    ensures accepted { OnOk result (held.new ≡ all_accepted held.old deps.now) }
    ensures settled { OnOk result (IsSettled (D.bytes disk.new) (D.loose disk.new) held.new) }
    ensures times { OnOk result (gates_of (D.bytes disk.new) (length held.old)
        ≡ times_all held.old (gates_of (D.bytes disk.old) (length held.old)) deps.now) }
    ensures stopped { OnErr result
        (OpensInPart (D.bytes disk.new) (D.loose disk.new) held.old deps.now) }
    ensures made { OnOk result (MadeCalls (D.made disk.old) (D.made disk.new) (cost_all held.old (gates_of (D.bytes disk.old) (length held.old)) deps.now)) }
    ensures made_at_most { D.made disk.new ≤ D.made disk.old + cost_all held.old (gates_of (D.bytes disk.old) (length held.old)) deps.now }
    ensures size { length (D.bytes disk.new) ≡ length (D.bytes disk.old) }
    ensures identity { D.identity disk.new ≡ D.identity disk.old }
    ensures faultless { OnOk result (D.disk_faults disk.new ≡ D.disk_faults disk.old) }
    ensures cause { HasCause (D.disk_faults disk.old) (D.disk_faults disk.new) result }
{
    for dep in deps {
        accept(disk, held, dep)?;
    }
    Ok(())
}
