//! The pipes of a file.

ghost use Rattle.std.specs.Prelude.{◌≡◌, ◌+◌, ◌-◌, ◌<◌, ◌^◌, false, Some, None, set, length, IfSome, IfNone};
ghost use Rattle.pipeline_stage.specs.Marks.{front_of, lying};
ghost use Rattle.rss_tables.specs.Pipes.{has_room as has_place, can_take as holds_something, is_marked as has_mark, pipe_put, pipe_taken, pipe_closed, pipe_cut_off};
ghost use Rattle.world_stages.specs.View.{pipe_of};

use causal_context::Context;
use pipeline_stage::{Front, Pipe};
use std::marker::Model;

/// The pipes of a file; pipe number p stands at place p - 1. Contracts see the tables' list. What is
/// done to a pipe that the file lacks changes nothing.
pub(crate) struct Pipes {
    pipes: Vec<Pipe>,
}

// Written out, so that who lets the pipes go sees one call.
impl Drop for Pipes {
    fn drop(self) {
        let Pipes { pipes: _pipes } = self;
    }
}

impl Model for Pipes {
    ghost use Rattle.std.specs.Prelude.{List};
    ghost use Rattle.rss_tables.specs.Pipes.{Pipe as PipeRow};

    ghost Value = { List PipeRow };

    ghost view = { λ p. p.pipes.items };
}

// The place of a pipe.
fn place_of(pipe: u8) -> usize
    ensures { result ≡ pipe - 1 }
{
    pipe.saturating_sub(1) as usize
}

impl Pipes {
    /// These pipes.
    pub(crate) fn new(pipes: Vec<Pipe>) -> Pipes
        ensures { result ≡ pipes.items }
    {
        Pipes { pipes }
    }

    /// The number of a pipe's next chunk or end mark; 1 where the file lacks the pipe.
    pub(crate) fn next(&self, pipe: u8) -> u32
        ensures { result ≡ (pipe_of self.now pipe).next }
    {
        match self.pipes.get(place_of(pipe)) {
            Some(found) => found.next(),
            None => 1,
        }
    }

    /// Whether a pipe has room for a chunk more, where it holds this many at most.
    pub(crate) fn has_room(&self, pipe: u8, capacity: u8) -> bool
        ensures { result ≡ has_place (pipe_of self.now pipe) capacity }
    {
        match self.pipes.get(place_of(pipe)) {
            Some(found) => found.has_room(capacity),
            None => 0 < capacity,
        }
    }

    /// Whether a pipe has an end mark.
    pub(crate) fn is_marked(&self, pipe: u8) -> bool
        ensures { result ≡ has_mark (pipe_of self.now pipe).mark }
    {
        match self.pipes.get(place_of(pipe)) {
            Some(found) => found.is_marked(),
            None => false,
        }
    }

    /// Whether a pipe holds a chunk or an end mark to take.
    pub(crate) fn can_take(&self, pipe: u8) -> bool
        ensures { result ≡ holds_something (pipe_of self.now pipe).chunks (pipe_of self.now pipe).mark }
    {
        match self.pipes.get(place_of(pipe)) {
            Some(found) => found.can_take(),
            None => false,
        }
    }

    /// What a take of a pipe meets.
    pub(crate) fn front(&self, pipe: u8) -> Front
        ensures { result ≡ front_of (pipe_of self.now pipe).chunks (pipe_of self.now pipe).mark }
    {
        match self.pipes.get(place_of(pipe)) {
            Some(found) => found.front(),
            None => Front::Nothing,
        }
    }

    /// The context that lies with what a take of a pipe meets, if one does.
    pub(crate) fn lying(&self, pipe: u8) -> Option<&Context>
        ensures some { IfSome result (λ found. lying (pipe_of self.now pipe).chunks (pipe_of self.now pipe).mark ≡ Some found.now.seen) }
        ensures none { IfNone result (lying (pipe_of self.now pipe).chunks (pipe_of self.now pipe).mark ≡ None) }
    {
        match self.pipes.get(place_of(pipe)) {
            Some(found) => found.lying(),
            None => None,
        }
    }

    /// A value is put into a pipe with a copy of its giver's context.
    pub(crate) fn put(&mut self, pipe: u8, value: u64, context: Context)
        requires few { length (pipe_of self.old pipe).chunks < 64 }
        requires numbers { (pipe_of self.old pipe).next + 1 < 2 ^ 32 }
        ensures { self.new ≡ set self.old (pipe - 1) (pipe_put (pipe_of self.old pipe) value context.seen false) }
    {
        if let Some(found) = self.pipes.get_mut(place_of(pipe)) {
            found.put(value, context);
        }
    }

    /// A value is dropped that nobody will take.
    pub(crate) fn skip(&mut self, pipe: u8)
        requires numbers { (pipe_of self.old pipe).next + 1 < 2 ^ 32 }
        ensures { self.new ≡ set self.old (pipe - 1) (record (pipe_of self.old pipe) { next = (pipe_of self.old pipe).next + 1 }) }
    {
        if let Some(found) = self.pipes.get_mut(place_of(pipe)) {
            found.skip();
        }
    }

    /// The first chunk of a pipe is taken out.
    pub(crate) fn take(&mut self, pipe: u8)
        ensures { self.new ≡ set self.old (pipe - 1) (pipe_taken (pipe_of self.old pipe)) }
    {
        if let Some(found) = self.pipes.get_mut(place_of(pipe)) {
            found.take();
        }
    }

    /// A pipe is closed, with this context.
    pub(crate) fn close(&mut self, pipe: u8, context: Context)
        requires numbers { (pipe_of self.old pipe).next + 1 < 2 ^ 32 }
        ensures { self.new ≡ set self.old (pipe - 1) (pipe_closed (pipe_of self.old pipe) context.seen) }
    {
        if let Some(found) = self.pipes.get_mut(place_of(pipe)) {
            found.close(context);
        }
    }

    /// A pipe ends unfenced.
    pub(crate) fn cut_off(&mut self, pipe: u8)
        ensures { self.new ≡ set self.old (pipe - 1) (pipe_cut_off (pipe_of self.old pipe)) }
    {
        if let Some(found) = self.pipes.get_mut(place_of(pipe)) {
            found.cut_off();
        }
    }
}
