//! Code: rounds over the replicas of a register service, the sessions of register calls, and spare
//! lists for the dependencies that they send.
#![tactic(auto)]

mod dep_lists;
mod laws;
mod round;
mod session;
mod spare_list;

pub use dep_lists::DepLists;
pub use round::Round;
pub use rss_wire::RegReply;
pub use session::RegSession;
