//! The requests that a replica handled in a run.

ghost use Rattle.std.specs.Prelude.{◌≡◌, ◌++◌, IfOk, OnOk};
ghost use Rattle.rss_machine.specs.Run.{steps_of};
ghost use Rattle.rss_names.specs.declared.service.Target.TheVariants.{Replica};
ghost use Rattle.rss_wire.specs.Messages.{same_target};
ghost use Rattle.handled_requests.specs.Handled.{brought, brought_by, handled_by};

use event_world::World;
use rss_machine::StepKind;
use rss_names::{ReplicaId, ServiceId, Target, is_same_service};
use rss_wire::Request;
use std::alloc::{AllocError, Global};

/// The requests that a replica of a service handled in the steps that a World made, in order: each that a step
/// delivered to it, and once more each that was delivered to it again.
///
/// # Errors
///
/// `AllocError`, where memory is wanting.
pub fn handled(
    alloc: Global,
    world: &World,
    service: ServiceId,
    replica: ReplicaId,
) -> Result<Vec<Request>, AllocError>
    ensures { IfOk result (λ requests. requests.items ≡
        handled_by world.now.state.net (Replica service replica) (steps_of world.now.log)) }
{
    let mut requests = Vec::new(alloc);
    for logged in world.log() {
        put_brought_by(
            alloc,
            &mut requests,
            world,
            service,
            replica,
            &logged.step.kind,
        )?;
    }
    Ok(requests)
}

// Appends the request that a step of this kind brought to the replica, if it brought one.
fn put_brought_by(
    alloc: Global,
    requests: &mut Vec<Request>,
    world: &World,
    service: ServiceId,
    replica: ReplicaId,
    kind: &StepKind,
) -> Result<(), AllocError>
    ensures { OnOk result (requests.new.items ≡
        requests.old.items ++ brought_by world.now.state.net (Replica service replica) kind.now) }
{
    match kind {
        StepKind::Go(number) => put_brought(alloc, requests, world, service, replica, *number),
        StepKind::Again(number) => put_brought(alloc, requests, world, service, replica, *number),
        StepKind::Act(_) => Ok(()),
        StepKind::Lose(_) => Ok(()),
        StepKind::Kill(_) => Ok(()),
        StepKind::Stub(_) => Ok(()),
    }
}

// Appends the request of this number, if it is one to the replica.
fn put_brought(
    alloc: Global,
    requests: &mut Vec<Request>,
    world: &World,
    service: ServiceId,
    replica: ReplicaId,
    number: u32,
) -> Result<(), AllocError>
    ensures { OnOk result (requests.new.items ≡
        requests.old.items ++ brought world.now.state.net (Replica service replica) number) }
{
    let Some(envelope) = world.envelope(number) else {
        return Ok(());
    };
    let Some(request) = world.request(number) else {
        return Ok(());
    };
    if !is_replica(envelope.target, service, replica) {
        return Ok(());
    }
    let copy = request.try_clone(alloc)?;
    match requests.push(copy) {
        Ok(()) => Ok(()),
        Err(_) => Err(AllocError),
    }
}

// Whether a target is this replica.
fn is_replica(target: Target, service: ServiceId, replica: ReplicaId) -> bool
    ensures { result ≡ same_target target (Replica service replica) }
{
    match target {
        Target::Shard(_) => false,
        Target::Replica(of, number) => {
            is_same_service(of, service) && number.number() == replica.number()
        }
    }
}
