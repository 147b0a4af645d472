//! The register services together.

ghost use Rattle.std.specs.Prelude.{◌≡◌, ◌-◌, [], true, length, replicate, IfOk, OnOk};
ghost use Rattle.rss_machine.specs.Marks.{first_mark, raised_by};
ghost use Rattle.rss_machine.specs.State.{replicas_of_services, service_index};
ghost use Rattle.rss_tables.specs.ReplicaRow.{replica_reply};
ghost use Rattle.reg_world.specs.Rows.{have_room_at, rooms_of, has_room_for, marks_of};
ghost use Rattle.reg_world.specs.Served.{cells_in, marks_in, served_by, noted_after};

use crate::marks::Marks;
use crate::registers;
use crate::service::{Service, reply_of_none};
use carstamps::Carstamp;
use pipeline_lang::{Config, ServiceDef};
use rss_names::{Key, ReplicaId, ServiceId};
use rss_wire::{Reply, Request};
use std::alloc::{AllocError, Global};
use std::marker::Model;

/// The replicas of all register services, and of each register when a majority first held which
/// stamp. Contracts see both as the machine's state has them, and whether each register has room for
/// one more mark.
pub struct RegWorld {
    services: Vec<Service>,
    registers: Vec<Marks>,
}

impl Drop for RegWorld {
    fn drop(self) {
        let RegWorld {
            services: _services,
            registers: _registers,
        } = self;
    }
}

impl Model for RegWorld {
    ghost use Rattle.reg_world.specs.RegView.{RegView};
    ghost use Rattle.reg_world.specs.Rows.{marks_of, rooms_of, have_room};

    ghost Value = { RegView };

    ghost view = { λ w. record { replicas = w.services.items; marks = marks_of w.registers.items; rooms = rooms_of w.registers.items; room = have_room w.registers.items } };
}

impl RegWorld {
    /// The register services of a file before the first step: each replica holds the opening values,
    /// and nothing is noted.
    pub fn new(alloc: Global, config: &Config) -> Result<RegWorld, AllocError>
        ensures replicas { IfOk result (λ w. w.replicas ≡ replicas_of_services (length config.now.registers) config.now.services) }
        ensures marks { IfOk result (λ w. w.marks ≡ replicate (length config.now.registers) []) }
    {
        let registers = config.registers.len();
        let services = opening_services(alloc, registers as u16, config.services.as_slice())?;
        let rows = registers::opening(alloc, registers)?;
        Ok(RegWorld {
            services,
            registers: rows,
        })
    }

    /// Makes room for one more mark of each register. An `Err` is want of memory.
    pub fn make_room(&mut self) -> Result<(), AllocError>
        ensures replicas { self.new.replicas ≡ self.old.replicas }
        ensures marks { self.new.marks ≡ self.old.marks }
        ensures room { OnOk result (self.new.room ≡ true) }
    {
        registers::make_room(&mut self.registers)
    }

    /// Makes room for one more mark of each register on which a request may raise a stamp; no other
    /// register is looked at. An `Err` is want of memory.
    #[tactic(auto, using(crate::proofs::Rooms::room_made))]
    pub fn make_room_for(&mut self, r: &Request) -> Result<(), AllocError>
        ensures replicas { self.new.replicas ≡ self.old.replicas }
        ensures marks { self.new.marks ≡ self.old.marks }
        ensures room { OnOk result (has_room_for self.new.rooms r.now ≡ true) }
    {
        registers::make_room_for(&mut self.registers, r)?;
        Ok(())
    }

    /// The same as `serve`, where there is room for one more mark of each register.
    #[tactic(auto, using(crate::proofs::Rooms::all_roomy))]
    pub fn handle(
        &mut self,
        service: ServiceId,
        replica: ReplicaId,
        r: &Request,
        step: u32,
    ) -> Reply
        requires room { self.old.room ≡ true }
        ensures replies { result ≡ replica_reply (cells_in self.old.replicas service replica) r.now }
        ensures serves { self.new.replicas ≡ served_by self.old.replicas service replica r.now }
        ensures notes { self.new.marks ≡ noted_after self.new.replicas service step r.now self.old.marks }
    {
        serve_in(
            &mut self.services,
            &mut self.registers,
            service,
            replica,
            r,
            step,
        )
    }

    /// A replica of a service serves a request in a step, and it is noted what a majority of the
    /// service's replicas then holds of the registers on which the request may have raised a stamp.
    /// Where there is no such service, replica or register, no replica changes, and the reply is that
    /// of a replica that holds opening values. Takes no memory.
    #[tactic(auto)]
    pub fn serve(&mut self, service: ServiceId, replica: ReplicaId, r: &Request, step: u32) -> Reply
        requires room { has_room_for self.old.rooms r.now ≡ true }
        ensures replies { result ≡ replica_reply (cells_in self.old.replicas service replica) r.now }
        ensures serves { self.new.replicas ≡ served_by self.old.replicas service replica r.now }
        ensures notes { self.new.marks ≡ noted_after self.new.replicas service step r.now self.old.marks }
    {
        serve_in(
            &mut self.services,
            &mut self.registers,
            service,
            replica,
            r,
            step,
        )
    }

    /// The step in which a majority of a register's replicas first held this stamp or a greater one,
    /// as noted, and None where nothing says so. Found by halves.
    pub fn majority_step(&self, key: Key, stamp: Carstamp) -> Option<u32>
        ensures { result ≡ first_mark (marks_in self.now.marks key) stamp }
    {
        let place = key.index as usize;
        if place < self.registers.len() {
            return self.registers[place].first(stamp);
        }
        None
    }
}

// A replica of a service serves a request, and what a majority then holds is noted.
fn serve_in(
    services: &mut Vec<Service>,
    registers: &mut Vec<Marks>,
    service: ServiceId,
    replica: ReplicaId,
    r: &Request,
    step: u32,
) -> Reply
    requires room { have_room_at (rooms_of registers.old.items) (raised_by r.now) ≡ true }
    ensures replies { result ≡ replica_reply (cells_in services.old.items service replica) r.now }
    ensures serves { services.new.items ≡ served_by services.old.items service replica r.now }
    ensures notes { marks_of registers.new.items ≡ noted_after services.new.items service step r.now (marks_of registers.old.items) }
{
    let place = place_of(service);
    if place >= services.len() {
        return reply_of_none(r);
    }
    let reply = services[place].handle(replica, r);
    registers::note_request(registers, &services[place], r, step);
    reply
}

// The place of a register service among the services; that of a transaction service is behind all.
fn place_of(service: ServiceId) -> usize
    ensures { result ≡ service_index service }
{
    match service {
        ServiceId::Reg(number) => number.saturating_sub(1) as usize,
        ServiceId::Txn(_) => 8,
    }
}

// The register services among these before the first step.
fn opening_services(
    alloc: Global,
    registers: u16,
    defs: &[ServiceDef],
) -> Result<Vec<Service>, AllocError>
    ensures { IfOk result (λ v. v.items ≡ replicas_of_services registers defs.now) }
{
    let mut services = Vec::new(alloc);
    for def in defs {
        match def.id {
            ServiceId::Reg(_) => services.push(Service::new(alloc, registers, def.replicas)?)?,
            ServiceId::Txn(_) => {}
        }
    }
    Ok(services)
}
