//! Histories that are written entry by entry.

use rss_model::{Entry, History, How, Op, Shown, Token};
use rss_names::{CallId, Key, Seq, ServiceId, StageId};
use std::alloc::{AllocError, Global};

/// A register.
pub const R: Key = Key {
    service: ServiceId::Reg(1),
    index: 0,
};
/// Another register.
pub const Q: Key = Key {
    service: ServiceId::Reg(1),
    index: 1,
};

/// A history that is being written; entries whose stage or call is out of range are left out.
#[derive(Drop)]
pub struct Telling {
    alloc: Global,
    entries: Vec<Entry>,
}

impl Telling {
    pub fn new(alloc: Global) -> Telling {
        Telling {
            alloc,
            entries: Vec::new(alloc),
        }
    }

    fn add(&mut self, entry: Entry) -> Result<(), AllocError> {
        self.entries.push(entry)?;
        Ok(())
    }

    /// A call of a stage begins.
    pub fn begin(&mut self, call: u32, stage: u8, op: Op) -> Result<(), AllocError> {
        match (CallId::new(call), StageId::new(stage)) {
            (Some(call), Some(stage)) => self.add(Entry::Begin(call, stage, op)),
            _ => Ok(()),
        }
    }

    /// A call ends that was shown this.
    pub fn end(&mut self, call: u32, shown: &[Shown]) -> Result<(), AllocError> {
        let reply = Seq::from_vec(Vec::from_slice(self.alloc, shown)?);
        match CallId::new(call) {
            Some(call) => self.add(Entry::End(call, reply)),
            None => Ok(()),
        }
    }

    /// A stage makes a call that shows this.
    pub fn call(
        &mut self,
        call: u32,
        stage: u8,
        op: Op,
        shown: &[Shown],
    ) -> Result<(), AllocError> {
        self.begin(call, stage, op)?;
        self.end(call, shown)
    }

    /// A stage gives a token.
    pub fn give(&mut self, stage: u8, token: Token) -> Result<(), AllocError> {
        match StageId::new(stage) {
            Some(stage) => self.add(Entry::Give(stage, token)),
            None => Ok(()),
        }
    }

    /// A stage gets a token.
    pub fn get(&mut self, stage: u8, token: Token) -> Result<(), AllocError> {
        match StageId::new(stage) {
            Some(stage) => self.add(Entry::Get(stage, token)),
            None => Ok(()),
        }
    }

    /// A stage is over, and gives nothing yet.
    pub fn over(&mut self, stage: u8, how: How) -> Result<(), AllocError> {
        match StageId::new(stage) {
            Some(stage) => self.add(Entry::Over(stage, how)),
            None => Ok(()),
        }
    }

    /// A stage gives its exit.
    pub fn give_exit(&mut self, stage: u8) -> Result<(), AllocError> {
        match StageId::new(stage) {
            Some(stage) => self.add(Entry::Give(stage, Token::Exit(stage))),
            None => Ok(()),
        }
    }

    /// What was written.
    pub fn told(self) -> History {
        let Telling { alloc: _, entries } = self;
        Seq::from_vec(entries)
    }
}
