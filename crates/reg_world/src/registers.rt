//! The marks of all registers.

ghost use Rattle.std.specs.Prelude.{◌≡◌, [], true, get_or, set, map, replicate, IfOk, OnOk};
ghost use Rattle.causal_context.specs.declared.dep.Dep.{Dep as Dependency};
ghost use Rattle.rss_machine.specs.Marks.{noted, notes_keys, raised_by};
ghost use Rattle.reg_world.specs.Rows.{marks_of, rooms_of, have_room, with_rooms, are_ready, is_ready_at, StayReady};

use crate::marks::Marks;
use crate::service::Service;
use causal_context::Dep;
use rss_names::Key;
use rss_wire::Request;
use std::alloc::{AllocError, Global};

/// So many registers without marks.
pub fn opening(alloc: Global, registers: usize) -> Result<Vec<Marks>, AllocError>
    ensures { IfOk result (λ v. marks_of v.items ≡ replicate registers []) }
{
    let mut rows = Vec::new(alloc);
    for _register in 0..registers {
        rows.push(Marks::new(alloc))?;
    }
    Ok(rows)
}

/// Makes room for one more mark of each register. An `Err` is want of memory.
pub fn make_room(registers: &mut [Marks]) -> Result<(), AllocError>
    ensures same { marks_of registers.new ≡ marks_of registers.old }
    ensures room { OnOk result (have_room registers.new ≡ true) }
{
    for place in 0..registers.len() {
        registers[place].make_room()?;
    }
    Ok(())
}

/// Makes room for one more mark of each register on which a request may raise a stamp. An `Err` is
/// want of memory.
pub fn make_room_for(registers: &mut Vec<Marks>, r: &Request) -> Result<(), AllocError>
    ensures same { marks_of registers.new.items ≡ marks_of registers.old.items }
    ensures room { OnOk result (rooms_of registers.new.items ≡ with_rooms (rooms_of registers.old.items) (raised_by r.now)) }
{
    match r {
        Request::Fix { deps } => make_room_of_deps(registers, deps.as_slice()),
        Request::Store { key, .. } => make_room_at(registers, *key),
        Request::Ask { .. }
        | Request::Stamp { .. }
        | Request::Lock { .. }
        | Request::Prepare { .. }
        | Request::Decide { .. }
        | Request::Commit { .. }
        | Request::Abort { .. }
        | Request::Inquire { .. }
        | Request::Release { .. }
        | Request::Snapshot { .. } => Ok(()),
    }
}

// Makes room for one more mark of the registers of dependencies.
fn make_room_of_deps(registers: &mut Vec<Marks>, deps: &[Dep]) -> Result<(), AllocError>
    ensures same { marks_of registers.new.items ≡ marks_of registers.old.items }
    ensures room { OnOk result (rooms_of registers.new.items ≡ with_rooms (rooms_of registers.old.items) (map (λ (d : Dependency). d.key) deps.now)) }
{
    for dep in deps {
        make_room_at(registers, dep.key)?;
    }
    Ok(())
}

// Makes room for one more mark of a register.
#[tactic(auto, using(crate::proofs::Rooms::making_room))]
fn make_room_at(registers: &mut Vec<Marks>, key: Key) -> Result<(), AllocError>
    ensures same { marks_of registers.new.items ≡ marks_of registers.old.items }
    ensures room { OnOk result (rooms_of registers.new.items ≡ set (rooms_of registers.old.items) key.index true) }
{
    let place = key.index as usize;
    if place >= registers.len() {
        return Ok(());
    }
    registers[place].make_room()?;
    Ok(())
}

/// Notes what a majority of a service's replicas holds of the registers on which a request may have
/// raised a stamp. Takes no memory.
pub fn note_request(registers: &mut [Marks], service: &Service, r: &Request, step: u32)
    requires ready { are_ready service.now registers.old (raised_by r.now) ≡ true }
    ensures { marks_of registers.new ≡ notes_keys service.now step (raised_by r.now) (marks_of registers.old) }
{
    match r {
        Request::Fix { deps } => note_deps(registers, service, deps.as_slice(), step),
        Request::Store { key, .. } => note_key(registers, service, *key, step),
        Request::Ask { .. }
        | Request::Stamp { .. }
        | Request::Lock { .. }
        | Request::Prepare { .. }
        | Request::Decide { .. }
        | Request::Commit { .. }
        | Request::Abort { .. }
        | Request::Inquire { .. }
        | Request::Release { .. }
        | Request::Snapshot { .. } => {}
    }
}

// Notes what a majority holds of the registers of dependencies.
fn note_deps(registers: &mut [Marks], service: &Service, deps: &[Dep], step: u32)
    requires ready { are_ready service.now registers.old (map (λ (d : Dependency). d.key) deps.now) ≡ true }
    ensures { marks_of registers.new ≡ notes_keys service.now step (map (λ (d : Dependency). d.key) deps.now) (marks_of registers.old) }
{
    for dep in deps {
        note_key(registers, service, dep.key, step);
    }
}

// Notes what a majority holds of a register.
fn note_key(registers: &mut [Marks], service: &Service, key: Key, step: u32)
    requires ready { is_ready_at service.now registers.old key ≡ true }
    ensures notes { marks_of registers.new ≡ set (marks_of registers.old) key.index (noted service.now key step (get_or (marks_of registers.old) key.index [])) }
    ensures ready { StayReady service.now registers.old registers.new }
{
    let place = key.index as usize;
    if place < registers.len() {
        registers[place].note(service.majority_stamp(key), step);
    }
}
