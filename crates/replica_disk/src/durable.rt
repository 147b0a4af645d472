//! A replica that keeps its registers on a disk.

ghost use Rattle.std.specs.Prelude.{◌≡◌, ◌+◌, ◌*◌, ◌<◌, ◌≤◌, ℕ, List, length, take, slice_index_or, IfOk, IfErr, MatchResult, OnOk, OnErr};
ghost use Rattle.rss_io.specs.Faults.{HasCause, Rose};
ghost use Rattle.rss_tables.specs.ReplicaRow.{accept_all as all_accepted, held_at, held_reply, opening_cell, replica_after, replica_reply};
ghost use Rattle.replica_disk.specs.Disks.{IsImage, LeavesAtMost, MadeCalls, NothingLoose};
ghost use Rattle.replica_disk.specs.Cells.{register_at};
ghost use Rattle.replica_disk.specs.Registers.{IsSettled, gates_of, registers_of};
ghost use Rattle.replica_disk.specs.Accepts.{OpensInPart, accepts_of, cost_all, times_all};

use crate::accepting::accept_all;
use crate::disk::Disk;
use crate::layout::{OPENING, REGISTER_SIZE, content_of};
use crate::placing::read_cell;
use causal_context::Dep;
use rss_io::Failed;
use rss_names::Key;
use rss_wire::{RegReply, Reply, Request};
use std::alloc::{AllocError, Global};
use thiserror::Error;

/// A replica of a register service that keeps on a disk what it holds of each register. Whatever a
/// stop leaves of the disk opens to all that was acknowledged.
#[derive(Drop)]
pub struct DurableReplica<D> {
    disk: D,
    held: Vec<RegReply>,
}

/// Why a disk was not opened.
#[derive(Clone, Copy, Debug, PartialEq, Eq, Error)]
pub enum OpenFault {
    /// A call on the disk failed.
    #[error("the disk failed")]
    DiskFault,
    /// Memory is wanting.
    #[error("out of memory")]
    OutOfMemory,
}

/// A call on the disk failed while a request was handled: the disk is to be opened again.
#[derive(Clone, Copy, Debug, PartialEq, Eq, Error)]
#[error("the disk failed")]
pub struct DiskFault;

impl<D: Disk> DurableReplica<D> {
    /// The replica of this many registers that a disk holds: of an empty disk, one of which no
    /// register was written. It begins with a sync.
    ///
    /// # Errors
    ///
    /// With the disk, of which a stop leaves nothing but what it might have left before:
    ///
    /// - `DiskFault` comes only where the disk's count of faults rose.
    /// - `OutOfMemory`, where memory is wanting.
    pub fn open(alloc: Global, disk: D, registers: u16) -> Result<DurableReplica<D>, (OpenFault, D)>
        requires size { 64 * registers ≤ length (D.bytes disk) }
        ensures registers { IfOk result (λ r. r.held.items ≡ registers_of (D.bytes disk) registers) }
        ensures bytes { IfOk result (λ r. D.bytes r.disk ≡ D.bytes disk) }
        ensures settled { IfOk result (λ r. IsSettled (D.bytes r.disk) (D.loose r.disk) r.held.items) }
        ensures made { IfOk result (λ r. MadeCalls (D.made disk) (D.made r.disk) 1) }
        ensures identity { MatchResult result (λ r. D.identity r.disk ≡ D.identity disk) (λ e. D.identity e.1 ≡ D.identity disk) }
        ensures faultless { IfOk result (λ r. D.disk_faults r.disk ≡ D.disk_faults disk) }
        ensures kept { IfErr result (λ e. LeavesAtMost (D.bytes e.1) (D.loose e.1) (D.bytes disk) (D.loose disk)) }
        ensures same { IfErr result (λ e. NothingLoose (D.loose disk) →
            registers_of (D.bytes e.1) registers ≡ registers_of (D.bytes disk) registers) }
        ensures made_at_most { IfErr result (λ e. D.made e.1 ≤ D.made disk + 1) }
        ensures size { IfErr result (λ e. length (D.bytes e.1) ≡ length (D.bytes disk)) }
        ensures fault { IfErr result (λ e. e.0 ≡ OpenFault.DiskFault → Rose (D.disk_faults disk) (D.disk_faults e.1)) }
    {
        let mut disk = disk;
        match held_by(alloc, &mut disk, registers) {
            Ok(held) => Ok(DurableReplica { disk, held }),
            Err(fault) => Err((fault, disk)),
        }
    }

    /// Serves a request: stores what it names where its stamp is greater than the held one, and shows
    /// what is held. A request of a shard is answered by `Done` and changes nothing. Takes no memory.
    /// The reply is made once all that it accepts stays on the disk.
    ///
    /// # Errors
    ///
    /// `DiskFault`, with the disk, comes only where the disk's count of faults rose. Whatever a stop
    /// then leaves opens to the registers before, with some front of what the request accepts; where
    /// the request is handled again, all is as if it had been handled once.
    #[tactic(auto, using(crate::proofs::Requests::requests))]
    pub fn handle(self, r: &Request) -> Result<(DurableReplica<D>, Reply), (DiskFault, D)>
        requires settled { IsSettled (D.bytes self.disk) (D.loose self.disk) self.held.items }
        ensures reply { IfOk result (λ ok. ok.1 ≡ replica_reply self.held.items r.now) }
        ensures all_made { IfOk result (λ ok. ok.0.held.items ≡ replica_after self.held.items r.now) }
        ensures settled { IfOk result (λ ok. IsSettled (D.bytes ok.0.disk) (D.loose ok.0.disk) ok.0.held.items) }
        ensures times { IfOk result (λ ok. gates_of (D.bytes ok.0.disk) (length self.held.items)
            ≡ times_all self.held.items (gates_of (D.bytes self.disk) (length self.held.items)) (accepts_of r.now)) }
        ensures stopped { IfErr result (λ e. OpensInPart (D.bytes e.1) (D.loose e.1) self.held.items (accepts_of r.now)) }
        ensures made { IfOk result (λ ok. MadeCalls (D.made self.disk) (D.made ok.0.disk)
            (cost_all self.held.items (gates_of (D.bytes self.disk) (length self.held.items)) (accepts_of r.now))) }
        ensures made_at_most { IfErr result (λ e. D.made e.1 ≤ D.made self.disk
            + cost_all self.held.items (gates_of (D.bytes self.disk) (length self.held.items)) (accepts_of r.now)) }
        ensures size { IfErr result (λ e. length (D.bytes e.1) ≡ length (D.bytes self.disk)) }
        ensures identity { MatchResult result (λ ok. D.identity ok.0.disk ≡ D.identity self.disk)
            (λ e. D.identity e.1 ≡ D.identity self.disk) }
        ensures faultless { IfOk result (λ ok. D.disk_faults ok.0.disk ≡ D.disk_faults self.disk) }
        ensures fault { IfErr result (λ e. Rose (D.disk_faults self.disk) (D.disk_faults e.1)) }
    {
        let DurableReplica { mut disk, mut held } = self;
        match accept_request(&mut disk, held.as_mut_slice(), r) {
            Ok(()) => {
                let reply = reply_to(&held, r);
                Ok((DurableReplica { disk, held }, reply))
            }
            Err(_) => Err((DiskFault, disk)),
        }
    }

    /// What is held of a register.
    pub fn register(&self, index: u16) -> RegReply
        requires { index < length self.now.held.items }
        ensures { result ≡ slice_index_or self.now.held.items index opening_cell }
    {
        self.held[index as usize]
    }

    // The disk, and what is held of each register.
    pub(crate) fn into_parts(self) -> (D, Vec<RegReply>)
        ensures disk { result.0 ≡ self.disk }
        ensures held { result.1.items ≡ self.held.items }
    {
        let DurableReplica { disk, held } = self;
        (disk, held)
    }

    /// The disk. Whatever a stop leaves of it opens to all that the replica held.
    #[tactic(auto, using(crate::proofs::Settled::settled_opens))]
    pub fn into_disk(self) -> D
        requires settled { IsSettled (D.bytes self.disk) (D.loose self.disk) self.held.items }
        ensures same { result ≡ self.disk }
        ensures opens { (image : List ℕ) → IsImage (D.bytes result) (D.loose result) image →
            registers_of image (length self.held.items) ≡ self.held.items }
    {
        let DurableReplica { disk, held: _held } = self;
        disk
    }
}

// What a disk holds of so many registers, once all of it stays.
#[tactic(auto, using(crate::proofs::Opening::opening))]
fn held_by<D: Disk>(alloc: Global, disk: &mut D, registers: u16) -> Result<Vec<RegReply>, OpenFault>
    requires size { 64 * registers ≤ length (D.bytes disk.old) }
    ensures registers { IfOk result (λ held. held.items ≡ registers_of (D.bytes disk.old) registers) }
    ensures bytes { OnOk result (D.bytes disk.new ≡ D.bytes disk.old) }
    ensures settled { IfOk result (λ held. IsSettled (D.bytes disk.new) (D.loose disk.new) held.items) }
    ensures made { OnOk result (MadeCalls (D.made disk.old) (D.made disk.new) 1) }
    ensures made_at_most { D.made disk.new ≤ D.made disk.old + 1 }
    ensures identity { D.identity disk.new ≡ D.identity disk.old }
    ensures faultless { OnOk result (D.disk_faults disk.new ≡ D.disk_faults disk.old) }
    ensures kept { OnErr result
        (LeavesAtMost (D.bytes disk.new) (D.loose disk.new) (D.bytes disk.old) (D.loose disk.old)) }
    ensures same { OnErr result (NothingLoose (D.loose disk.old) →
        registers_of (D.bytes disk.new) registers ≡ registers_of (D.bytes disk.old) registers) }
    ensures size { length (D.bytes disk.new) ≡ length (D.bytes disk.old) }
    ensures fault { result ≡ Err OpenFault.DiskFault → Rose (D.disk_faults disk.old) (D.disk_faults disk.new) }
{
    match disk.sync() {
        Ok(()) => read_registers(alloc, disk, registers),
        Err(_) => Err(OpenFault::DiskFault),
    }
}

// What a disk holds of so many registers. It leaves the disk as it is.
#[tactic(auto, using(crate::proofs::Opening::opening))]
fn read_registers<D: Disk>(
    alloc: Global,
    disk: &mut D,
    registers: u16,
) -> Result<Vec<RegReply>, OpenFault>
    requires size { 64 * registers ≤ length (D.bytes disk.old) }
    ensures registers { IfOk result (λ held. held.items ≡ registers_of (D.bytes disk.old) registers) }
    ensures length { IfOk result (λ held. length held.items ≡ registers) }
    ensures bytes { D.bytes disk.new ≡ D.bytes disk.old }
    ensures loose { (p : ℕ) → D.loose disk.new p ≡ D.loose disk.old p }
    ensures made { D.made disk.new ≡ D.made disk.old }
    ensures later { D.disk_faults disk.old ≤ D.disk_faults disk.new }
    ensures identity { D.identity disk.new ≡ D.identity disk.old }
    ensures faultless { OnOk result (D.disk_faults disk.new ≡ D.disk_faults disk.old) }
    ensures fault { result ≡ Err OpenFault.DiskFault → Rose (D.disk_faults disk.old) (D.disk_faults disk.new) }
{
    let mut held = Vec::new(alloc);
    for index in 0..registers {
        match read_register(disk, index) {
            Ok(content) => match held.push(content) {
                Ok(()) => {}
                Err(_) => return Err(OpenFault::OutOfMemory),
            },
            Err(_) => return Err(OpenFault::DiskFault),
        }
    }
    Ok(held)
}

// What a disk holds of a register.
#[tactic(auto, unfolding(crate::specs::Cells::register_at))]
fn read_register<D: Disk>(disk: &mut D, index: u16) -> Result<RegReply, Failed>
    requires within { 64 * index + 64 ≤ length (D.bytes disk.old) }
    ensures content { IfOk result (λ content. content ≡ register_at (D.bytes disk.old) index) }
    ensures bytes { D.bytes disk.new ≡ D.bytes disk.old }
    ensures loose { (p : ℕ) → D.loose disk.new p ≡ D.loose disk.old p }
    ensures made { D.made disk.new ≡ D.made disk.old }
    ensures identity { D.identity disk.new ≡ D.identity disk.old }
    ensures faultless { OnOk result (D.disk_faults disk.new ≡ D.disk_faults disk.old) }
    ensures cause { HasCause (D.disk_faults disk.old) (D.disk_faults disk.new) result }
{
    let at = REGISTER_SIZE * u32::from(index);
    let first = read_cell(disk, at)?;
    let second = read_cell(disk, at + 32)?;
    Ok(content_of(first, second))
}

// Accepts on the disk and in memory what a request has a replica accept.
#[tactic(auto, using(crate::proofs::Requests::requests), unfolding(crate::specs::Accepts::accepts_of))]
fn accept_request<D: Disk>(disk: &mut D, held: &mut [RegReply], r: &Request) -> Result<(), Failed>
    requires settled { IsSettled (D.bytes disk.old) (D.loose disk.old) held.old }
    ensures accepted { OnOk result (held.new ≡ all_accepted held.old (accepts_of r.now)) }
    ensures settled { OnOk result (IsSettled (D.bytes disk.new) (D.loose disk.new) held.new) }
    ensures times { OnOk result (gates_of (D.bytes disk.new) (length held.old)
        ≡ times_all held.old (gates_of (D.bytes disk.old) (length held.old)) (accepts_of r.now)) }
    ensures stopped { OnErr result
        (OpensInPart (D.bytes disk.new) (D.loose disk.new) held.old (accepts_of r.now)) }
    ensures made { OnOk result (MadeCalls (D.made disk.old) (D.made disk.new)
        (cost_all held.old (gates_of (D.bytes disk.old) (length held.old)) (accepts_of r.now))) }
    ensures made_at_most { D.made disk.new ≤ D.made disk.old
        + cost_all held.old (gates_of (D.bytes disk.old) (length held.old)) (accepts_of r.now) }
    ensures size { length (D.bytes disk.new) ≡ length (D.bytes disk.old) }
    ensures identity { D.identity disk.new ≡ D.identity disk.old }
    ensures faultless { OnOk result (D.disk_faults disk.new ≡ D.disk_faults disk.old) }
    ensures cause { HasCause (D.disk_faults disk.old) (D.disk_faults disk.new) result }
{
    match r {
        Request::Fix { deps } => accept_all(disk, held, deps.as_slice()),
        Request::Store {
            key,
            value,
            stamp,
            writer,
        } => {
            let dep = Dep {
                key: *key,
                value: *value,
                stamp: *stamp,
                writer: *writer,
            };
            accept_all(disk, held, &[dep])
        }
        Request::Ask { .. }
        | Request::Stamp { .. }
        | Request::Lock { .. }
        | Request::Prepare { .. }
        | Request::Decide { .. }
        | Request::Commit { .. }
        | Request::Abort { .. }
        | Request::Inquire { .. }
        | Request::Release { .. }
        | Request::Snapshot { .. } => accept_all(disk, held, &[]),
    }
}

// What a replica that holds this replies to a request.
#[tactic(auto, unfolding(rss_tables::specs::ReplicaRow::replica_reply))]
fn reply_to(held: &[RegReply], r: &Request) -> Reply
    ensures { result ≡ replica_reply held.now r.now }
{
    match r {
        Request::Fix { .. } => Reply::Fixed,
        Request::Store { .. } => Reply::Stored,
        Request::Ask { key } => shown(held, *key),
        Request::Stamp { key } => shown(held, *key),
        Request::Lock { .. }
        | Request::Prepare { .. }
        | Request::Decide { .. }
        | Request::Commit { .. }
        | Request::Abort { .. }
        | Request::Inquire { .. }
        | Request::Release { .. }
        | Request::Snapshot { .. } => Reply::Done,
    }
}

// What is held of a register, as a reply: as of one that was never written where there is none.
fn shown(held: &[RegReply], key: Key) -> Reply
    ensures { result ≡ held_reply (held_at held.now key) }
{
    let cell = match held.get(key.index as usize) {
        Some(cell) => *cell,
        None => OPENING,
    };
    Reply::Held {
        value: cell.value,
        stamp: cell.stamp,
        writer: cell.writer,
    }
}
