//! The line of a fault.

ghost use Rattle.std.specs.Prelude.{◌≡◌, ◌++◌, OnOk, IfOk};
ghost use Rattle.rss_cli.specs.FaultText.{file_text, net_text, refusal_text, no_replica_text, fault_text};

use crate::fault::Fault;
use pipeline_file::FileFault;
use report_lines::{put, put_number};
use rss_machine::StepRefusal;
use rss_wire::NetRefusal;
use std::alloc::{AllocError, Global};

// The fault of a file, and its place.
fn put_file(alloc: Global, out: &mut Vec<u8>, fault: FileFault) -> Result<(), AllocError>
    ensures { OnOk result (out.new.items ≡ out.old.items ++ file_text fault) }
{
    put(out, b"fault file ")?;
    fault.append_to(alloc, out)?;
    put(out, b"\n")
}

fn put_net(out: &mut Vec<u8>, refusal: NetRefusal) -> Result<(), AllocError>
    ensures { OnOk result (out.new.items ≡ out.old.items ++ net_text refusal) }
{
    match refusal {
        NetRefusal::NoSuchMessage => put(out, b"NoSuchMessage"),
        NetRefusal::Lost => put(out, b"Lost"),
        NetRefusal::Delivered => put(out, b"Delivered"),
        NetRefusal::NotDelivered => put(out, b"NotDelivered"),
        NetRefusal::AgainUsed => put(out, b"AgainUsed"),
    }
}

fn put_refusal(alloc: Global, out: &mut Vec<u8>, cause: StepRefusal) -> Result<(), AllocError>
    ensures { OnOk result (out.new.items ≡ out.old.items ++ refusal_text cause) }
{
    match cause {
        StepRefusal::LogFull => put(out, b"LogFull"),
        StepRefusal::Reading(contradiction) => {
            put(out, b"Reading ")?;
            put_number(alloc, out, contradiction.greatest_earliest)?;
            put(out, b" ")?;
            put_number(alloc, out, contradiction.latest)
        }
        StepRefusal::StageOver => put(out, b"StageOver"),
        StepRefusal::Message(refusal) => {
            put(out, b"Message ")?;
            put_net(out, refusal)
        }
        StepRefusal::NotEnabled => put(out, b"NotEnabled"),
    }
}

// The fault of a replica that is not there.
fn put_no_replica(alloc: Global, out: &mut Vec<u8>, replica: u64) -> Result<(), AllocError>
    ensures { OnOk result (out.new.items ≡ out.old.items ++ no_replica_text replica) }
{
    put(out, b"fault replica ")?;
    put_number(alloc, out, replica)?;
    put(out, b"\n")
}

#[tactic(auto, unfolding(crate::specs::FaultText::fault_text))]
fn put_fault(alloc: Global, out: &mut Vec<u8>, fault: Fault) -> Result<(), AllocError>
    ensures { OnOk result (out.new.items ≡ out.old.items ++ fault_text fault) }
{
    match fault {
        Fault::Usage => put(out, b"fault usage\n"),
        Fault::File(fault) => put_file(alloc, out, fault),
        Fault::TooLong => put(out, b"fault file OverLimit file\n"),
        Fault::OffGrammar { number, column } => {
            put(out, b"fault step ")?;
            put_number(alloc, out, number)?;
            put(out, b" column ")?;
            put_number(alloc, out, column)?;
            put(out, b"\n")
        }
        Fault::Refused { number, cause } => {
            put(out, b"fault step ")?;
            put_number(alloc, out, number)?;
            put(out, b" ")?;
            put_refusal(alloc, out, cause)?;
            put(out, b"\n")
        }
        Fault::NoReplica(replica) => put_no_replica(alloc, out, replica),
    }
}

/// The line of a fault.
pub fn fault_line(alloc: Global, fault: Fault) -> Result<Vec<u8>, AllocError>
    ensures { IfOk result (λ line. line.items ≡ fault_text fault) }
{
    let mut line = Vec::new(alloc);
    put_fault(alloc, &mut line, fault)?;
    Ok(line)
}
