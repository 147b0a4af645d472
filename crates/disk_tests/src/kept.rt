//! A replica of three registers on a disk in memory, between two requests.

use crate::plain::{Held, Registers};
use replica_disk::{Disk, DurableReplica, MemDisk, OpenFault};
use rss_wire::{RegReply, Request};
use std::alloc::{AllocError, Global};
use std::marker::Model;

/// The bytes of three registers.
pub const SIZE: u32 = 192;

/// A replica of three registers that waits for a request.
#[derive(Drop)]
pub struct Kept {
    replica: DurableReplica<MemDisk>,
}

impl Model for Kept {
    ghost use Rattle.std.specs.Prelude.{◌≡◌, length};
    ghost use Rattle.rss_wire.specs.declared.messages.RegReply.{RegReply as Content};
    ghost use Rattle.std.specs.Prelude.{List};
    ghost use Rattle.replica_disk.specs.Memory.{is_loose};
    ghost use Rattle.replica_disk.specs.Registers.{IsSettled};

    ghost Value = { List Content };

    ghost view = { λ k. k.replica.held.items };

    ghost invariant = { λ k. (length k.replica.held.items ≡ 3)
        × IsSettled k.replica.disk.bytes (is_loose k.replica.disk.loose) k.replica.held.items };
}

impl Kept {
    /// The replica that a disk holds, or the disk where it stops.
    #[tactic(auto, using(replica_disk::proofs::Opening::registers_length))]
    pub fn open(alloc: Global, disk: MemDisk) -> Result<Result<Kept, MemDisk>, AllocError> {
        if disk.size() < SIZE {
            return Err(AllocError);
        }
        match DurableReplica::open(alloc, disk, 3) {
            Ok(replica) => Ok(Ok(Kept { replica })),
            Err((OpenFault::DiskFault, disk)) => Ok(Err(disk)),
            Err((OpenFault::OutOfMemory, _)) => Err(AllocError),
        }
    }

    /// The replica behind a request, or the disk where it stops.
    #[tactic(auto, using(replica_disk::proofs::Fronts::after_length))]
    pub fn handle(self, request: &Request) -> Result<Kept, MemDisk> {
        let Kept { replica } = self;
        match replica.handle(request) {
            Ok((replica, _reply)) => Ok(Kept { replica }),
            Err((_, disk)) => Err(disk),
        }
    }

    /// What the registers hold.
    pub fn registers(&self) -> Registers {
        Registers {
            first: held_of(self.replica.register(0)),
            second: held_of(self.replica.register(1)),
            third: held_of(self.replica.register(2)),
        }
    }
}

// A register's content.
fn held_of(content: RegReply) -> Held {
    Held {
        number: content.stamp.number,
        call: content.stamp.call,
        value: content.value,
        writer: content.writer,
    }
}
