//! Code: the calls of a history and the messages that were given, by number.
#![tactic(auto)]

mod entries;
mod index;
mod laws;
mod messages;

pub use entries::{op_at, reply_at, stage_at};
pub use index::{Begun, HistoryIndex, index_history};
pub use laws::{indexes_go_on, places_tell};
pub use messages::{MessageKey, message_key};
