//! A list of requests, served over a disk that stops once.

ghost use Rattle.std.specs.Prelude.{◌≡◌, ◌*◌, ◌≤◌, ◌&&◌, nat_le, length, replicate, IfOk, if◌then◌else◌};
ghost use Rattle.rss_tables.specs.ReplicaRow.{opening_cell, replica_after};
ghost use Rattle.replica_disk.specs.Disks.{NothingLoose};
ghost use Rattle.replica_disk.specs.Memory.{is_loose, stops_met};
ghost use Rattle.replica_disk.specs.Registers.{IsSettled, gates_of, registers_of};
ghost use Rattle.replica_disk.specs.Accepts.{accepts_of, after_all, calls_needed, cost_all, requests_cost, times_all};
ghost use Rattle.replica_disk.specs.Serving.{GoesOn};

use crate::durable::{DurableReplica, OpenFault};
use crate::layout::REGISTER_SIZE;
use crate::mem_disk::MemDisk;
use rss_wire::{RegReply, Request};
use std::alloc::{AllocError, Global};

/// What a replica held of each register in the end, and how many stops it met.
#[derive(Drop)]
pub struct Served {
    pub registers: Vec<RegReply>,
    pub stops: u8,
}

/// Serves requests, one after another, by a replica of this many registers on a disk in memory that
/// was never written, of whose writes and syncs the one numbered `stop` stops it, and none where
/// `stop` is 0. After the stop the disk is opened again, and where a request was in hand it is
/// handled again.
///
/// # Errors
///
/// `AllocError`, where memory is wanting.
#[tactic(auto, using(crate::proofs::Serves::fresh_stops))]
pub fn serve(
    alloc: Global,
    registers: u16,
    stop: u32,
    requests: &[Request],
) -> Result<Served, AllocError>
    ensures registers { IfOk result (λ s. s.registers.items
        ≡ after_all (replicate registers opening_cell) requests.now) }
    ensures stops { IfOk result (λ s. s.stops
        ≡ (if nat_le 1 stop && nat_le stop (calls_needed registers requests.now) then 1 else 0)) }
{
    let disk = MemDisk::new(alloc, REGISTER_SIZE * u32::from(registers), stop)?;
    let opened = open(alloc, disk, registers)?;
    let replica = handle_all(alloc, opened, registers, requests)?;
    let (disk, registers) = replica.into_parts();
    Ok(Served {
        registers,
        stops: disk.stops(),
    })
}

// Handles requests, one after another.
#[tactic(auto, using(crate::proofs::Serves::serves))]
fn handle_all(
    alloc: Global,
    replica: DurableReplica<MemDisk>,
    registers: u16,
    requests: &[Request],
) -> Result<DurableReplica<MemDisk>, AllocError>
    requires settled { IsSettled replica.disk.bytes (is_loose replica.disk.loose) replica.held.items }
    requires registers { length replica.held.items ≡ registers }
    ensures held { IfOk result (λ r. r.held.items ≡ after_all replica.held.items requests.now) }
    ensures goes_on { IfOk result (λ r. GoesOn replica.disk r.disk
        (requests_cost replica.held.items (gates_of replica.disk.bytes registers) requests.now)) }
{
    let mut replica = replica;
    for request in requests {
        replica = handle(alloc, replica, registers, request)?;
    }
    Ok(replica)
}

// Handles a request; where the disk stops, once more after it was opened again.
#[tactic(auto, using(crate::proofs::Serves::handles))]
fn handle(
    alloc: Global,
    replica: DurableReplica<MemDisk>,
    registers: u16,
    request: &Request,
) -> Result<DurableReplica<MemDisk>, AllocError>
    requires settled { IsSettled replica.disk.bytes (is_loose replica.disk.loose) replica.held.items }
    requires registers { length replica.held.items ≡ registers }
    ensures held { IfOk result (λ r. r.held.items ≡ replica_after replica.held.items request.now) }
    ensures settled { IfOk result (λ r. IsSettled r.disk.bytes (is_loose r.disk.loose) r.held.items) }
    ensures times { IfOk result (λ r. stops_met r.disk ≡ 0 → gates_of r.disk.bytes registers
        ≡ times_all replica.held.items (gates_of replica.disk.bytes registers) (accepts_of request.now)) }
    ensures goes_on { IfOk result (λ r. GoesOn replica.disk r.disk
        (cost_all replica.held.items (gates_of replica.disk.bytes registers) (accepts_of request.now))) }
{
    match replica.handle(request) {
        Ok((next, _reply)) => Ok(next),
        Err((_, disk)) => handle_again(alloc, disk, registers, request),
    }
}

// Opens a disk that has stopped, and handles the request that was in hand.
fn handle_again(
    alloc: Global,
    disk: MemDisk,
    registers: u16,
    request: &Request,
) -> Result<DurableReplica<MemDisk>, AllocError>
    requires size { 64 * registers ≤ length disk.bytes }
    requires stopped { stops_met disk ≡ 1 }
    ensures held { IfOk result (λ r. r.held.items ≡ replica_after (registers_of disk.bytes registers) request.now) }
    ensures settled { IfOk result (λ r. IsSettled r.disk.bytes (is_loose r.disk.loose) r.held.items) }
    ensures stopped { IfOk result (λ r. stops_met r.disk ≡ 1) }
    ensures identity { IfOk result (λ r. r.disk.stop ≡ disk.stop) }
{
    match DurableReplica::open(alloc, disk, registers) {
        Ok(replica) => Ok(handle_at_last(replica, request)),
        Err((OpenFault::OutOfMemory, _)) => Err(AllocError),
        Err((OpenFault::DiskFault, _)) => unreachable!(),
    }
}

// Handles a request on a disk that has stopped, and so does not stop once more.
fn handle_at_last(replica: DurableReplica<MemDisk>, request: &Request) -> DurableReplica<MemDisk>
    requires settled { IsSettled replica.disk.bytes (is_loose replica.disk.loose) replica.held.items }
    requires stopped { stops_met replica.disk ≡ 1 }
    ensures held { result.held.items ≡ replica_after replica.held.items request.now }
    ensures settled { IsSettled result.disk.bytes (is_loose result.disk.loose) result.held.items }
    ensures stopped { stops_met result.disk ≡ 1 }
    ensures identity { result.disk.stop ≡ replica.disk.stop }
{
    match replica.handle(request) {
        Ok((next, _reply)) => next,
        Err(_) => unreachable!(),
    }
}

// Opens a disk that has not stopped yet; where it stops then, once more.
#[tactic(auto, using(crate::proofs::Serves::handles))]
fn open(alloc: Global, disk: MemDisk, registers: u16) -> Result<DurableReplica<MemDisk>, AllocError>
    requires size { 64 * registers ≤ length disk.bytes }
    requires unstopped { stops_met disk ≡ 0 }
    requires durable { NothingLoose (is_loose disk.loose) }
    ensures held { IfOk result (λ r. r.held.items ≡ registers_of disk.bytes registers) }
    ensures settled { IfOk result (λ r. IsSettled r.disk.bytes (is_loose r.disk.loose) r.held.items) }
    ensures bytes { IfOk result (λ r. stops_met r.disk ≡ 0 → r.disk.bytes ≡ disk.bytes) }
    ensures goes_on { IfOk result (λ r. GoesOn disk r.disk 1) }
{
    match DurableReplica::open(alloc, disk, registers) {
        Ok(replica) => Ok(replica),
        Err((OpenFault::OutOfMemory, _)) => Err(AllocError),
        Err((OpenFault::DiskFault, disk)) => Ok(open_again(alloc, disk, registers)?),
    }
}

// Opens a disk that has stopped, and so does not stop once more.
fn open_again(
    alloc: Global,
    disk: MemDisk,
    registers: u16,
) -> Result<DurableReplica<MemDisk>, AllocError>
    requires size { 64 * registers ≤ length disk.bytes }
    requires stopped { stops_met disk ≡ 1 }
    ensures held { IfOk result (λ r. r.held.items ≡ registers_of disk.bytes registers) }
    ensures settled { IfOk result (λ r. IsSettled r.disk.bytes (is_loose r.disk.loose) r.held.items) }
    ensures stopped { IfOk result (λ r. stops_met r.disk ≡ 1) }
    ensures identity { IfOk result (λ r. r.disk.stop ≡ disk.stop) }
{
    match DurableReplica::open(alloc, disk, registers) {
        Ok(replica) => Ok(replica),
        Err((OpenFault::OutOfMemory, _)) => Err(AllocError),
        Err((OpenFault::DiskFault, _)) => unreachable!(),
    }
}
