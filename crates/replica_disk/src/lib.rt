//! Code: a replica of a register service that keeps its registers on a disk, so that a stop at any
//! write or sync loses nothing that it acknowledged.
#![tactic(auto)]

mod accepting;
mod disk;
mod durable;
mod laws;
mod layout;
mod mem_disk;
mod placing;
mod serving;

pub use disk::Disk;
pub use durable::{DiskFault, DurableReplica, OpenFault};
pub use laws::{a_request_may_be_handled_again, what_is_settled_stays};
pub use mem_disk::MemDisk;
pub use serving::{Served, serve};
