//! The parts of the machine's state that are plain records.

use carstamps::Carstamp;
use rss_model::How;
use rss_names::Target;

/// The life of a stage.
#[derive(Clone, Copy, PartialEq, Eq)]
pub enum Life {
    /// Not spawned yet.
    Unborn,
    Live,
    Over(How),
}

/// How an owner stands: a call, a fence statement, or a stub.
#[derive(Clone, Copy, PartialEq, Eq)]
pub enum OwnerFate {
    Running,
    /// A call that replied, a fence statement or a stub whose works are done.
    Ended,
    /// Its stage was killed.
    Dropped,
    /// This target was cut off from it, and with it a shard or a quorum.
    CutOff(Target),
}

/// The steps in which an owner began, entered its service, sent its own first round and was over: it
/// ended, its stage was killed, or a target was cut off from it. 0 where it has not.
#[derive(Clone, Copy, PartialEq, Eq)]
pub struct Dates {
    pub begun: u32,
    pub entered: u32,
    pub launched: u32,
    pub ended: u32,
}

/// A majority of a register's replicas has held this stamp, or a greater one, from this step on and
/// not before.
#[derive(Clone, Copy, PartialEq, Eq)]
pub struct Mark {
    pub stamp: Carstamp,
    pub step: u32,
}
