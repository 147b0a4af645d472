//! Code: the configuration that a pipeline file says, or its first fault.
#![tactic(auto)]

mod declaration;
mod declared_names;
mod doubles;
mod file;
mod resolve;
mod scripts;
mod services;

pub use file::read;
pub use pipeline_tables::{FaultKind, FileError, FileFault, FileKey, Place, Table};
