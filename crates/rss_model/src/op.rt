//! Operations on keys, and what they reply.

ghost use Rattle.std.specs.Prelude.{◌≡◌, IfOk};

use pipeline_lang::{Compare, Expr};
use rss_names::{Key, Seq};
use std::alloc::{AllocError, Global};

/// A value that a transaction writes, over the positions of its own reads, counted from 0.
pub type Formula = Expr<u8>;

/// The test of a guarded transaction, over the positions of its own reads.
pub type Guard = Compare<u8>;

/// An operation of one call.
pub enum Op {
    /// Reads a register.
    Read(Key),
    /// Writes a value to a register.
    Write(Key, u64),
    /// Reads keys of a transaction service.
    Snap(Seq<Key>),
    /// Reads keys and then writes keys of a transaction service; with a guard, writes only where
    /// the guard holds of what it read.
    Txn(Seq<Key>, Option<Guard>, Seq<(Key, Formula)>),
}

// Written out, so that who lets an operation go sees one call and none of its parts.
impl Drop for Op {
    fn drop(self) {
        match self {
            Op::Read(_key) => {}
            Op::Write(_key, _value) => {}
            Op::Snap(_keys) => {}
            Op::Txn(_keys, _guard, _writes) => {}
        }
    }
}

impl Op {
    /// An equal operation.
    pub fn try_clone(&self, alloc: Global) -> Result<Op, AllocError>
        ensures { IfOk result (λ copy. copy ≡ self.now) }
    {
        match self {
            Op::Read(key) => Ok(Op::Read(*key)),
            Op::Write(key, value) => Ok(Op::Write(*key, *value)),
            Op::Snap(keys) => Ok(Op::Snap(keys.try_clone(alloc)?)),
            Op::Txn(keys, guard, writes) => {
                let keys = keys.try_clone(alloc)?;
                Ok(Op::Txn(keys, *guard, writes.try_clone(alloc)?))
            }
        }
    }
}

/// What a call was shown of a key: the value, and the number of the call that wrote it. Writer 0 is
/// the opening value 0.
#[derive(Clone, Copy, PartialEq, Eq)]
pub struct Shown {
    pub key: Key,
    pub value: u64,
    pub writer: u32,
}

/// What a call replies: what it was shown of each key that it reads, in the operation's order.
pub type Reply = Seq<Shown>;
