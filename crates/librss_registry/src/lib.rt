//! Code: the services that a caller hands in, what is planned of them, and which are entered.
#![tactic(auto)]

mod counted;
mod plans;
mod refusals;
mod registry;
mod service;

pub use counted::{RegService, TxnService};
pub use plans::{Fences, Plan};
pub use refusals::{RegisterRefusal, Unknown};
pub use registry::Registry;
pub use service::Service;
