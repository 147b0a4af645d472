//! Dependencies on register values that no majority is known to hold.

use carstamps::Carstamp;
use rss_names::Key;

/// A value that was read from a register and may not be held by a majority of its replicas yet: it
/// is stored at a majority before the reader's next register call.
#[derive(Clone, Copy)]
pub struct Dep {
    pub key: Key,
    pub value: u64,
    pub stamp: Carstamp,
    pub writer: u32,
}
