//! Room for requests.

ghost use Rattle.std.specs.Prelude.{◌≡◌, nat_lt, true, is_some, OnOk};
ghost use Rattle.txn_shard.specs.ShardView.{has_room_to_lock, has_room_to_prepare, has_room_to_commit, has_room_to_release, has_room_to_read};

use crate::applying::make_version_room;
use crate::shard::Shard;
use rss_names::Attempt;
use std::alloc::AllocError;

impl Shard {
    // Room to ask for locks over this many keys to read and to write.
    pub(crate) fn room_to_lock(&mut self, reads: usize, writes: usize) -> Result<(), AllocError>
        ensures same { self.new.shard ≡ self.old.shard }
        ensures room { OnOk result (has_room_to_lock self.new reads writes ≡ true) }
    {
        match reads.checked_add(writes) {
            None => return Err(AllocError),
            Some(keys) => self.locks.make_room(keys)?,
        }
        self.wounded.clear();
        self.wounded.reserve(self.locks.holders())?;
        self.shown.clear();
        self.shown.reserve(reads)
    }

    // Room to prepare an attempt with this many writes.
    pub(crate) fn room_to_prepare(&mut self, writes: usize) -> Result<(), AllocError>
        ensures same { self.new.shard ≡ self.old.shard }
        ensures room { OnOk result (has_room_to_prepare self.new writes ≡ true) }
    {
        self.prepared.make_room(writes)?;
        self.writes.clear();
        self.writes.reserve(writes)
    }

    // Room to decide an attempt.
    pub(crate) fn room_to_decide(&mut self) -> Result<(), AllocError>
        ensures same { self.new.shard ≡ self.old.shard }
        ensures room { OnOk result (nat_lt 0 self.new.room.decisions ≡ true) }
    {
        self.decisions.reserve(1)
    }

    // Room to commit an attempt.
    pub(crate) fn room_to_commit(&mut self, attempt: Attempt) -> Result<(), AllocError>
        ensures same { self.new.shard ≡ self.old.shard }
        ensures room { OnOk result (has_room_to_commit self.new attempt ≡ true) }
    {
        self.locks.make_room(0)?;
        match self.prepared.get(attempt) {
            None => Ok(()),
            Some(entry) => make_version_room(&mut self.store, entry.writes()),
        }
    }

    // Room to end an attempt.
    pub(crate) fn room_to_end(&mut self) -> Result<(), AllocError>
        ensures same { self.new.shard ≡ self.old.shard }
        ensures room { OnOk result (is_some self.new.room.locks ≡ true) }
    {
        self.locks.make_room(0)
    }

    // Room to give locks back.
    pub(crate) fn room_to_release(&mut self) -> Result<(), AllocError>
        ensures same { self.new.shard ≡ self.old.shard }
        ensures room { OnOk result (has_room_to_release self.new ≡ true) }
    {
        self.locks.make_room(0)?;
        self.decisions.reserve(1)?;
        self.released.reserve(1)
    }

    // Room for a snapshot of this many keys.
    pub(crate) fn room_to_read(&mut self, keys: usize) -> Result<(), AllocError>
        ensures same { self.new.shard ≡ self.old.shard }
        ensures room { OnOk result (has_room_to_read self.new keys ≡ true) }
    {
        let writers = self.prepared.len();
        self.blocking.clear();
        self.blocking.reserve(writers)?;
        self.skipped.clear();
        self.skipped.reserve(writers)?;
        self.shown.clear();
        self.shown.reserve(keys)
    }
}
