//! The answer to `disk N K`, once the steps are made.

ghost use Rattle.std.specs.Prelude.{◌≡◌, true, IfOk};
ghost use Rattle.disk_report.specs.Text.{disk_text};
ghost use Rattle.handled_requests.specs.Handled.{handled_by};
ghost use Rattle.rss_machine.specs.Run.{steps_of};
ghost use Rattle.rss_names.specs.declared.service.ServiceId.TheVariants.{Reg};
ghost use Rattle.rss_names.specs.declared.service.Target.TheVariants.{Replica};
ghost use Rattle.rss_cli.specs.Answer.{is_answer};
ghost use Rattle.rss_cli.specs.Disk.{TellsDisk};
ghost use Rattle.world_laws.specs.Shapes.{IsSoundFile};

use crate::answer::{Answer, fault_answer};
use crate::fault::Fault;
use crate::status::Status;
use disk_report::disk_report;
use event_world::World;
use handled_requests::handled;
use rss_names::{ReplicaId, ServiceId};
use std::alloc::{AllocError, Global};

/// The answer that tells what a disk of a replica of `reg` holds of the requests that the replica handled, or
/// that the file has fewer replicas.
pub fn disk_answer(
    alloc: Global,
    replica: ReplicaId,
    stop: u32,
    world: &World,
) -> Result<Answer, AllocError>
    requires sound { IsSoundFile world.now.config }
    ensures told { IfOk result (λ a.
        TellsDisk replica stop world.now.config world.now.state (steps_of world.now.log) a.text.items a.status) }
    ensures status { IfOk result (λ a. is_answer a.status ≡ true) }
{
    if world.config().replicas(ServiceId::Reg(1)) < replica.number() {
        let fault = Fault::NoReplica(u64::from(replica.number()));
        return fault_answer(alloc, fault, Status::File);
    }
    let text = disk_of(alloc, replica, stop, world)?;
    Ok(Answer {
        status: Status::Done,
        text,
    })
}

// The report on the disk of a replica of `reg`.
#[tactic(auto, using(crate::proofs::Promised::few_registers))]
fn disk_of(
    alloc: Global,
    replica: ReplicaId,
    stop: u32,
    world: &World,
) -> Result<Vec<u8>, AllocError>
    requires sound { IsSoundFile world.now.config }
    ensures { IfOk result (λ text. text.items ≡ disk_text world.now.config replica stop
        (handled_by world.now.state.net (Replica (Reg 1) replica) (steps_of world.now.log))) }
{
    let requests = handled(alloc, world, ServiceId::Reg(1), replica)?;
    disk_report(
        alloc,
        world.config(),
        replica.number(),
        stop,
        requests.as_slice(),
    )
}
