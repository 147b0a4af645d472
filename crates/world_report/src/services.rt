//! The lines of the services of which fences were planned.

ghost use Rattle.std.specs.Prelude.{◌≡◌, ◌++◌, ◌+◌, [], OnOk};
ghost use Rattle.causal_context.specs.Services.{place_of};
ghost use Rattle.rss_machine.specs.ReportText.{count_at, service_line, service_lines};

use event_world::World;
use pipeline_lang::ServiceDef;
use report_lines::put_service;
use std::alloc::{AllocError, Global};

// Appends the line of a service by what a World has planned of it.
#[tactic(auto, using(crate::proofs::Counts::none_before))]
fn put_planned(
    alloc: Global,
    out: &mut Vec<u8>,
    w: &World,
    service: &ServiceDef,
) -> Result<(), AllocError>
    ensures { OnOk result (out.new.items ≡ out.old.items ++ service_line service.now.name
        (count_at (place_of service.now.id) [] + count_at (place_of service.now.id) w.now.state.planned)) }
{
    let fences = w.planned(service.id);
    put_service(alloc, out, service.name.bytes(), fences)
}

/// Appends the lines of the services, in the order of services.
pub fn put_services(alloc: Global, out: &mut Vec<u8>, w: &World) -> Result<(), AllocError>
    ensures { OnOk result (out.new.items ≡
        out.old.items ++ service_lines w.now.config.services [] w.now.state.planned) }
{
    let services = w.config().services.as_slice();
    for service in services {
        put_planned(alloc, out, w, service)?;
    }
    Ok(())
}
