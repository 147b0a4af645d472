//! The report on a disk.

ghost use Rattle.std.specs.Prelude.{◌≡◌, ◌+◌, ◌≤◌, drop, length, IfOk};
ghost use Rattle.rss_names.specs.declared.service.ServiceId.TheVariants.{Reg};
ghost use Rattle.disk_report.specs.Text.{count_of, disk_text};

use crate::lines::{put_last, put_registers};
use pipeline_lang::Config;
use replica_disk::serve;
use rss_names::ServiceId;
use rss_wire::Request;
use std::alloc::{AllocError, Global};

// How many of these services are the first of the register services.
fn count_of_first(services: &[ServiceId]) -> u16
    requires few { length services.now ≤ 64 }
    ensures { result ≡ count_of (Reg 1) services.now }
{
    let mut count: u16 = 0;
    for service in services {
        if *service == ServiceId::Reg(1) {
            count += 1;
        }
    }
    count
}

/// The report on the disk of a replica of the register service `reg`: it serves these requests, one after
/// another, on a disk in memory of 64 bytes a register, of whose writes and syncs the one numbered `stop`
/// stops it, and none where `stop` is 0. After the stop the disk is opened again, and where a request was
/// in hand it is handled again. A line for each register of `reg` tells what the replica then holds, and
/// the last line how many requests it handled and how many stops it met.
///
/// # Errors
///
/// `AllocError`, where memory is wanting.
pub fn disk_report(
    alloc: Global,
    config: &Config,
    replica: u8,
    stop: u32,
    requests: &[Request],
) -> Result<Vec<u8>, AllocError>
    requires few { length config.now.register_services ≤ 64 }
    ensures { IfOk result (λ text. text.items ≡ disk_text config.now replica stop requests.now) }
{
    let registers = count_of_first(config.register_services.as_slice());
    let served = serve(alloc, registers, stop, requests)?;
    let mut out = Vec::new(alloc);
    put_registers(alloc, &mut out, config, served.registers.as_slice())?;
    put_last(alloc, &mut out, replica, requests.len(), served.stops)?;
    Ok(out)
}
