//! Where the walk of a stage's script stands.

ghost use Rattle.std.specs.Prelude.{◌≡◌, ◌+◌, ◌<◌, ◌^◌, IfOk, OnOk, slice_set, get_or, false};
ghost use Rattle.rss_model.specs.Cursor.{next_cursor, with_variable, cursor_in_block, cursor_after_end};
ghost use Rattle.rss_model.specs.Walk.{next_given as next_number};
ghost use Rattle.plain_walk.specs.Walks.{mode_of};

use rss_model::How;
use rss_names::CallId;
use std::alloc::{AllocError, Global};
use std::marker::Model;

/// An open block: the position of its first statement, and its turns left, this one included.
#[derive(Clone, Copy)]
pub(crate) struct Block {
    pub(crate) first: usize,
    pub(crate) turns: u64,
}

impl Model for Block {
    ghost use Rattle.rss_model.specs.Cursor.{Block as OpenBlock};

    ghost Value = { OpenBlock };

    ghost view = { λ b. record { first = b.first; turns = b.turns } };

    ghost inverse = { λ b. record { first = b.first; turns = b.turns } };
}

/// What a stage that is over still has to give.
#[derive(Clone, Copy, PartialEq, Eq)]
pub(crate) enum Owed {
    /// The end mark of a pipe, under this number.
    EndMark(usize, u64),
    /// The exit of the stage of this number.
    Exit(u8),
}

/// A stage is not spawned yet, between statements, in a call, or over with this still to give.
#[derive(Drop)]
pub(crate) enum Mode {
    Unborn,
    Ready,
    InCall(CallId),
    Over(How, Vec<Owed>),
}

impl Mode {
    /// An equal mode.
    fn try_clone(&self, alloc: Global) -> Result<Mode, AllocError>
        ensures { IfOk result (λ copy. mode_of copy ≡ mode_of self.now) }
    {
        match self {
            Mode::Unborn => Ok(Mode::Unborn),
            Mode::Ready => Ok(Mode::Ready),
            Mode::InCall(call) => Ok(Mode::InCall(*call)),
            Mode::Over(how, owed) => Ok(Mode::Over(*how, Vec::from_slice(alloc, owed)?)),
        }
    }
}

/// Where a walk stands: the position of the next statement, the open blocks from the inside out, the
/// variables by number, and by pipe the last number given, the last chunk taken, and whether its end
/// mark was given.
#[derive(Drop)]
pub struct StageWalk {
    pub(crate) position: usize,
    pub(crate) blocks: Vec<Block>,
    pub(crate) variables: Vec<u64>,
    pub(crate) given: Vec<u32>,
    pub(crate) taken: Vec<u32>,
    pub(crate) closed: Vec<bool>,
    pub(crate) mode: Mode,
}

impl Model for StageWalk {
    ghost use Rattle.rss_model.specs.Walk.{Walk};

    ghost Value = { Walk };

    ghost use Rattle.plain_walk.specs.Walks.{walk_of};

    ghost view = { walk_of };
}

/// Sets the value at a place of a list; a place past the end changes nothing.
pub(crate) fn set_at<T: Copy>(list: &mut [T], place: usize, value: T)
    ensures { list.new ≡ slice_set list.old place value }
{
    if place < list.len() {
        list[place] = value;
    }
}

impl StageWalk {
    /// An equal walk.
    pub fn try_clone(&self, alloc: Global) -> Result<StageWalk, AllocError>
        ensures { IfOk result (λ copy. copy ≡ self.now) }
    {
        let blocks = Vec::from_slice(alloc, &self.blocks)?;
        let variables = Vec::from_slice(alloc, &self.variables)?;
        let given = Vec::from_slice(alloc, &self.given)?;
        let taken = Vec::from_slice(alloc, &self.taken)?;
        let closed = Vec::from_slice(alloc, &self.closed)?;
        let mode = self.mode.try_clone(alloc)?;
        Ok(StageWalk {
            position: self.position,
            blocks,
            variables,
            given,
            taken,
            closed,
            mode,
        })
    }

    /// The number of the last chunk that was taken from a pipe.
    pub(crate) fn last_taken(&self, pipe: u8) -> u32
        ensures { result ≡ get_or self.now.taken pipe 0 }
    {
        match self.taken.as_slice().get(pipe as usize) {
            Some(number) => *number,
            None => 0,
        }
    }

    /// The number of the next chunk or end mark that the stage gives to a pipe.
    pub(crate) fn next_given(&self, pipe: usize) -> u64
        ensures { result ≡ next_number self.now pipe }
    {
        match self.given.as_slice().get(pipe) {
            Some(number) => *number as u64 + 1,
            None => 1,
        }
    }

    /// Whether the stage gave the end mark of a pipe.
    pub(crate) fn is_closed(&self, pipe: usize) -> bool
        ensures { result ≡ get_or self.now.closed pipe false }
    {
        match self.closed.as_slice().get(pipe) {
            Some(closed) => *closed,
            None => false,
        }
    }

    /// Goes on to the next statement.
    pub(crate) fn advance(&mut self)
        requires { self.old.cursor.position + 1 < 2 ^ 64 }
        ensures { self.new ≡ record self.old { cursor = next_cursor self.old.cursor } }
    {
        self.position += 1;
    }

    /// Sets a variable; `status` is variable 0.
    pub(crate) fn set_variable(&mut self, variable: u8, value: u64)
        ensures { self.new ≡
            record self.old { cursor = with_variable self.old.cursor variable value } }
    {
        set_at(&mut self.variables, variable as usize, value);
    }

    /// Goes into a block that runs so many times.
    pub(crate) fn enter_block(&mut self, turns: u64) -> Result<(), AllocError>
        requires { self.old.cursor.position + 1 < 2 ^ 64 }
        ensures { OnOk result (self.new ≡
            record self.old { cursor = cursor_in_block self.old.cursor turns }) }
    {
        let first = self.position + 1;
        self.blocks.insert(0, Block { first, turns })?;
        self.position = first;
        Ok(())
    }

    /// Goes on behind an `end`: into the innermost block again while it has turns left, and else past
    /// it.
    pub(crate) fn leave_block(&mut self)
        requires { self.old.cursor.position + 1 < 2 ^ 64 }
        ensures { self.new ≡ record self.old {
          cursor = cursor_after_end self.old.cursor self.old.cursor.blocks;
        } }
    {
        if self.blocks.is_empty() {
            self.position += 1;
            return;
        }
        let Block { first, turns } = self.blocks[0];
        if 1 < turns {
            self.position = first;
            self.blocks[0] = Block {
                first,
                turns: turns - 1,
            };
        } else {
            self.position += 1;
            self.blocks.remove(0);
        }
    }
}
