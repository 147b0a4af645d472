//! A disk in memory.

ghost use Rattle.std.specs.Prelude.{◌≡◌, ◌↔◌, ◌+◌, ◌*◌, ◌<◌, ◌≤◌, ◌^◌, ◌==◌, ◌||◌, ◌&&◌, ℕ, true, false, nat_le, nat_lt, length, slice_index, IfOk, IsErr, IsTrue, OnOk, OnErr};
ghost use Rattle.rss_io.specs.Faults.{HasCause, one_more};
ghost use Rattle.replica_disk.specs.Disks.{IsDurable, IsImage, IsOverwritten, LooseWithin, with_range};
ghost use Rattle.replica_disk.specs.Memory.{fresh_memory, is_loose, stops_met, torn_byte, byte_left};

use crate::disk::Disk;
use rss_io::Failed;
use std::alloc::{AllocError, Global};
use std::marker::Model;

/// A disk in memory that stops at a chosen one of its writes and syncs, and at no other call.
#[derive(Drop)]
pub struct MemDisk {
    bytes: Vec<u8>,
    loose: Vec<bool>,
    calls: u64,
    stop: u32,
}

impl Model for MemDisk {
    ghost use Rattle.std.specs.Prelude.{◌≡◌, ◌<◌, ◌^◌, length};
    ghost use Rattle.replica_disk.specs.Memory.{Memory};

    ghost Value = { Memory };

    ghost view = { λ d.
        record { bytes = d.bytes.items; loose = d.loose.items; calls = d.calls; stop = d.stop } };

    ghost invariant = { λ d.
        (length d.loose.items ≡ length d.bytes.items) × (length d.bytes.items < 2 ^ 32) };
}

impl MemDisk {
    /// A disk of so many zero bytes. Of its writes and syncs, counted from 1, the one numbered `stop`
    /// fails, and none where `stop` is 0. It leaves of each byte at a place p that was written since
    /// the last sync, its own range included, (7 p + `stop`) mod 256.
    ///
    /// # Errors
    ///
    /// `AllocError`, where memory is wanting.
    pub fn new(alloc: Global, size: u32, stop: u32) -> Result<MemDisk, AllocError>
        ensures { IfOk result (λ d. d ≡ fresh_memory size stop) }
    {
        let bytes = vec![in alloc; 0u8; size as usize]?;
        let loose = vec![in alloc; false; size as usize]?;
        Ok(MemDisk {
            bytes,
            loose,
            calls: 0,
            stop,
        })
    }

    /// How many of its calls failed: one where the stop was met, and none otherwise.
    pub fn stops(&self) -> u8
        ensures { result ≡ stops_met self.now }
    {
        if 1 <= self.stop && u64::from(self.stop) <= self.calls {
            1
        } else {
            0
        }
    }
}

impl Disk for MemDisk {
    ghost bytes = { λ d. d.bytes };

    ghost loose = { λ d p. is_loose d.loose p };

    ghost disk_faults = { stops_met };

    ghost made = { λ d. d.calls };

    ghost identity = { λ d. d.stop };

    fn size(&self) -> u32 {
        self.bytes.len() as u32
    }

    fn read(&mut self, at: u32, into: &mut [u8]) -> Result<(), Failed> {
        copy_from(&self.bytes, at as usize, into);
        Ok(())
    }

    fn write(&mut self, at: u32, from: &[u8]) -> Result<(), Failed>
        requires within { at + length from.now ≤ length self.old.bytes }
        ensures written { OnOk result (IsOverwritten self.old.bytes self.new.bytes at from.now) }
        ensures torn { OnErr result
            (IsImage self.old.bytes (with_range (is_loose self.old.loose) at (length from.now)) self.new.bytes) }
        ensures loose { LooseWithin (is_loose self.new.loose) (with_range (is_loose self.old.loose) at (length from.now)) }
        ensures made { self.new.calls ≡ one_more self.old.calls }
        ensures identity { self.new.stop ≡ self.old.stop }
        ensures faultless { OnOk result (stops_met self.new ≡ stops_met self.old) }
        ensures cause { HasCause (stops_met self.old) (stops_met self.new) result }
        ensures stops { IsErr result ↔ (one_more self.old.calls ≡ self.old.stop) }
        ensures range { (p : ℕ) → is_loose self.new.loose p ≡ with_range (is_loose self.old.loose) at (length from.now) p }
        ensures left { OnErr result ((p : ℕ) →
            slice_index self.new.bytes p ≡ byte_left self.old.bytes self.new.loose self.old.stop p) }
    {
        mark(&mut self.loose, at as usize, from.len());
        if is_stop(&mut self.calls, self.stop) {
            tear(&mut self.bytes, &self.loose, self.stop);
            return Err(Failed);
        }
        put(&mut self.bytes, at as usize, from);
        Ok(())
    }

    fn sync(&mut self) -> Result<(), Failed>
        ensures same { OnOk result (self.new.bytes ≡ self.old.bytes) }
        ensures durable { OnOk result (IsDurable (is_loose self.new.loose)) }
        ensures torn { OnErr result (IsImage self.old.bytes (is_loose self.old.loose) self.new.bytes) }
        ensures loose { LooseWithin (is_loose self.new.loose) (is_loose self.old.loose) }
        ensures made { self.new.calls ≡ one_more self.old.calls }
        ensures identity { self.new.stop ≡ self.old.stop }
        ensures faultless { OnOk result (stops_met self.new ≡ stops_met self.old) }
        ensures cause { HasCause (stops_met self.old) (stops_met self.new) result }
        ensures stops { IsErr result ↔ (one_more self.old.calls ≡ self.old.stop) }
        ensures left { OnErr result ((p : ℕ) →
            slice_index self.new.bytes p ≡ byte_left self.old.bytes self.old.loose self.old.stop p) }
    {
        if is_stop(&mut self.calls, self.stop) {
            tear(&mut self.bytes, &self.loose, self.stop);
            return Err(Failed);
        }
        settle(&mut self.loose);
        Ok(())
    }
}

// Copies the bytes from a place on.
fn copy_from(bytes: &[u8], at: usize, into: &mut [u8])
    requires { at + length into.old ≤ length bytes.now }
    ensures { (k : ℕ) → k < length into.old → slice_index into.new k ≡ slice_index bytes.now (at + k) }
{
    for k in 0..into.len() {
        into[k] = bytes[at + k];
    }
}

// Puts bytes from a place on.
fn put(bytes: &mut [u8], at: usize, from: &[u8])
    requires { at + length from.now ≤ length bytes.old }
    ensures { IsOverwritten bytes.old bytes.new at from.now }
{
    for k in 0..from.len() {
        bytes[at + k] = from[k];
    }
}

// Notes that so many places from one on are written.
fn mark(loose: &mut [bool], at: usize, count: usize)
    requires { at + count ≤ length loose.old }
    ensures { (p : ℕ) → is_loose loose.new p ≡ with_range (is_loose loose.old) at count p }
{
    for place in at..at + count {
        loose[place] = true;
    }
}

// Notes that all that was written stays.
fn settle(loose: &mut [bool])
    ensures { IsDurable (is_loose loose.new) }
{
    for place in loose.iter_mut() {
        *place = false;
    }
}

// Leaves of each byte that was written since the last sync what a stop leaves.
fn tear(bytes: &mut [u8], loose: &[bool], stop: u32)
    requires same { length loose.now ≡ length bytes.old }
    requires small { length bytes.old < 2 ^ 32 }
    ensures { (p : ℕ) → slice_index bytes.new p ≡ byte_left bytes.old loose.now stop p }
{
    for place in 0..bytes.len() {
        if loose[place] {
            bytes[place] = torn(place, stop);
        }
    }
}

// What a stop leaves of a byte that was written since the last sync.
fn torn(place: usize, stop: u32) -> u8
    requires { place < 2 ^ 32 }
    ensures { result ≡ torn_byte place stop }
{
    ((7 * place as u64 + u64::from(stop)) % 256) as u8
}

// Counts one call more; whether it is the one that the disk stops at.
fn is_stop(calls: &mut u64, stop: u32) -> bool
    ensures counted { calls.new ≡ one_more calls.old }
    ensures stops { IsTrue result ↔ (calls.new ≡ stop) }
{
    *calls = calls.saturating_add(1);
    *calls == u64::from(stop)
}
