//! Code: one owner of messages whole (a call, a fence statement or a stub), and its turns.
#![tactic(auto)]

mod acting;
mod aim;
mod currents;
mod ending;
mod going;
mod hearing;
mod moment;
mod owner;
mod reading;
mod room;
mod spare;
mod starting;
mod stubs;
mod timing;
mod way;

pub use currents::Currents;
pub use ending::TurnEnd;
pub use moment::Moment;
pub use owner::Owner;
pub use owner_sessions::Outbox;
pub use reading::OwnerEnabling;
pub use spare::Spare;
