//! What a script can name.

ghost use Rattle.std.specs.Prelude.{◌≡◌, get_or};
ghost use Rattle.script_binding.specs.Naming.{naming, register_at, register_of, key_at, key_of, stage_of, pipe_of, gives_to, takes_from};

use pipeline_lang::{NameTable, PipeEnds};
use rss_names::{Key, MOST_STAGES, Name, Seq, ServiceId, ShardId, StageId};

/// How many stages, and how many pipes, a file has at most.
const MOST: u16 = MOST_STAGES as u16;

/// What the script of one stage can name. Every list stands in file order. Of the stages and the
/// pipes the first 16 can be named.
pub struct Names<'a> {
    pub registers: &'a NameTable,
    /// The service of each register.
    pub register_services: &'a Seq<ServiceId>,
    /// The keys of all shards.
    pub keys: &'a NameTable,
    /// The shard of each key.
    pub homes: &'a Seq<ShardId>,
    /// The service of each shard.
    pub shard_services: &'a Seq<ServiceId>,
    pub stages: &'a NameTable,
    pub pipes: &'a NameTable,
    /// The ends of each pipe.
    pub pipe_ends: &'a Seq<PipeEnds>,
    /// The stage whose script it is.
    pub stage: StageId,
    /// The stages that the scripts before this one spawn.
    pub spawned: &'a Seq<StageId>,
}

impl Names<'_> {
    /// The register of this name.
    pub(crate) fn register(&self, name: &Name) -> Option<Key>
        ensures { result ≡ register_of (naming self.now) name.now }
    {
        match self.registers.position(name) {
            Some(index) => Some(Key {
                service: self.service_of_register(index),
                index,
            }),
            None => None,
        }
    }

    // The service of the register at a position.
    fn service_of_register(&self, index: u16) -> ServiceId
        ensures { result ≡ (register_at (naming self.now) index).service }
    {
        match self.register_services.as_slice().get(index as usize) {
            Some(service) => *service,
            None => ServiceId::Reg(0),
        }
    }

    /// The key of this name.
    pub(crate) fn key(&self, name: &Name) -> Option<Key>
        ensures { result ≡ key_of (naming self.now) name.now }
    {
        match self.keys.position(name) {
            Some(index) => Some(Key {
                service: self.service_of_key(index),
                index,
            }),
            None => None,
        }
    }

    // The service of the key at a position: that of its shard.
    fn service_of_key(&self, index: u16) -> ServiceId
        ensures { result ≡ (key_at (naming self.now) index).service }
    {
        let shard = self.home(index);
        match self
            .shard_services
            .as_slice()
            .get(shard.saturating_sub(1) as usize)
        {
            Some(service) => *service,
            None => ServiceId::Txn(0),
        }
    }

    // The number of the shard of the key at a position, or 0.
    fn home(&self, index: u16) -> u8
        ensures { result ≡ get_or (naming self.now).homes index 0 }
    {
        match self.homes.as_slice().get(index as usize) {
            Some(shard) => shard.number(),
            None => 0,
        }
    }

    /// The stage of this name.
    pub(crate) fn stage_named(&self, name: &Name) -> Option<StageId>
        ensures { result ≡ stage_of (naming self.now) name.now }
    {
        match self.stages.position(name) {
            Some(at) => {
                if at < MOST {
                    StageId::new(at as u8 + 1)
                } else {
                    None
                }
            }
            None => None,
        }
    }

    /// The number of the pipe of this name.
    pub(crate) fn pipe_named(&self, name: &Name) -> Option<u8>
        ensures { result ≡ pipe_of (naming self.now) name.now }
    {
        match self.pipes.position(name) {
            Some(at) => { if at < MOST { Some(at as u8 + 1) } else { None } }
            None => None,
        }
    }

    /// Whether the script's stage puts into the pipe of this number.
    pub(crate) fn gives_to(&self, pipe: u8) -> bool
        ensures { result ≡ gives_to (naming self.now) pipe }
    {
        match self
            .pipe_ends
            .as_slice()
            .get(pipe.saturating_sub(1) as usize)
        {
            Some(ends) => ends.giver == self.stage,
            None => false,
        }
    }

    /// Whether the script's stage takes from the pipe of this number.
    pub(crate) fn takes_from(&self, pipe: u8) -> bool
        ensures { result ≡ takes_from (naming self.now) pipe }
    {
        match self
            .pipe_ends
            .as_slice()
            .get(pipe.saturating_sub(1) as usize)
        {
            Some(ends) => ends.taker == self.stage,
            None => false,
        }
    }
}
