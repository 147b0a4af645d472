//! A pipe between two stages.

ghost use Rattle.std.specs.Prelude.{◌≡◌, ◌+◌, ◌<◌, ◌^◌, length, Some, None, true, false, IfOk, IfSome, IfNone};
ghost use Rattle.rss_tables.specs.Pipes.{opening_pipe, has_room as has_place, can_take as holds_something, is_marked as has_mark, pipe_put, pipe_taken, pipe_closed, pipe_cut_off};
ghost use Rattle.pipeline_stage.specs.Marks.{front_of, front_mark, mark_of, mark_context, lying};

use causal_context::Context;
use std::alloc::{AllocError, Global};
use std::collections::VecDeque;
use std::marker::Model;

/// The greatest number of chunks that a pipe holds.
const MOST_CHUNKS: usize = 64;

/// A chunk: its number in the pipe from 1, its value, and a copy of its giver's context. Contracts see
/// it as the tables' chunk.
pub struct Chunk {
    number: u32,
    value: u64,
    context: Context,
}

// Written out, so that a caller who lets a chunk go sees one call and none of its parts.
impl Drop for Chunk {
    fn drop(self) {
        let Chunk {
            number: _number,
            value: _value,
            context: _context,
        } = self;
    }
}

impl Model for Chunk {
    ghost use Rattle.rss_tables.specs.Pipes.{Chunk as ChunkRow};

    ghost Value = { ChunkRow };

    ghost view = { λ c. record { number = c.number; value = c.value; context = c.context.seen } };
}

/// The end mark of a pipe: numbered and with a context where its giver ended fenced, bare where it died
/// unfenced.
pub(crate) enum Mark {
    Open,
    Fenced(u32, Context),
    Bare,
}

// Written out, so that a caller who lets a mark go sees one call and none of its parts.
impl Drop for Mark {
    fn drop(self) {
        match self {
            Mark::Open => {}
            Mark::Fenced(_number, _context) => {}
            Mark::Bare => {}
        }
    }
}

/// What a take meets: the first chunk by number and value, the end mark, or nothing.
#[derive(Clone, Copy)]
pub enum Front {
    Chunk(u32, u64),
    /// The end mark under this number, with a context.
    Fenced(u32),
    /// The end mark of a giver that died unfenced.
    Bare,
    Nothing,
}

/// A pipe: its chunks in order, the number of the next chunk or end mark, and its end mark. It has room
/// for the most chunks that a file allows. Contracts see it as the tables' pipe.
pub struct Pipe {
    chunks: VecDeque<Chunk>,
    next: u32,
    mark: Mark,
}

// Written out, so that a caller who lets a pipe go sees one call and none of its parts.
impl Drop for Pipe {
    fn drop(self) {
        let Pipe {
            chunks: _chunks,
            next: _next,
            mark: _mark,
        } = self;
    }
}

impl Model for Pipe {
    ghost use Rattle.std.specs.Prelude.{◌≤◌};
    ghost use Rattle.std.specs.VecDeque.{deque_capacity};
    ghost use Rattle.rss_tables.specs.Pipes.{Pipe as PipeRow};
    ghost use Rattle.pipeline_stage.specs.Marks.{mark_of};

    ghost Value = { PipeRow };

    ghost view = { λ p. record { chunks = p.chunks.items; next = p.next; mark = mark_of p.mark } };

    ghost invariant = { λ p. 64 ≤ deque_capacity p.chunks };
}

impl Pipe {
    /// A pipe into which nothing was put yet.
    pub fn new(alloc: Global) -> Result<Pipe, AllocError>
        ensures { IfOk result (λ p. p ≡ opening_pipe) }
    {
        let chunks = VecDeque::with_capacity(alloc, MOST_CHUNKS)?;
        Ok(Pipe {
            chunks,
            next: 1,
            mark: Mark::Open,
        })
    }

    /// The number of the next chunk or end mark.
    pub fn next(&self) -> u32
        ensures { result ≡ self.now.next }
    {
        self.next
    }

    /// Whether it has room for a chunk more, where it holds this many at most.
    pub fn has_room(&self, capacity: u8) -> bool
        ensures { result ≡ has_place self.now capacity }
    {
        self.chunks.len() < capacity as usize
    }

    /// Whether it has an end mark.
    pub fn is_marked(&self) -> bool
        ensures { result ≡ has_mark self.now.mark }
    {
        match &self.mark {
            Mark::Open => false,
            Mark::Fenced(_, _) => true,
            Mark::Bare => true,
        }
    }

    /// Whether there is a chunk or an end mark to take.
    pub fn can_take(&self) -> bool
        ensures { result ≡ holds_something self.now.chunks self.now.mark }
    {
        match self.chunks.front() {
            Some(_) => true,
            None => self.is_marked(),
        }
    }

    /// What a take meets.
    pub fn front(&self) -> Front
        ensures { result ≡ front_of self.now.chunks self.now.mark }
    {
        match self.chunks.front() {
            Some(chunk) => chunk.told(),
            None => self.mark.told(),
        }
    }

    /// The context that lies with what a take meets, if one does.
    pub fn lying(&self) -> Option<&Context>
        ensures some { IfSome result (λ found. lying self.now.chunks self.now.mark ≡ Some found.now.seen) }
        ensures none { IfNone result (lying self.now.chunks self.now.mark ≡ None) }
    {
        match self.chunks.front() {
            Some(chunk) => Some(chunk.context()),
            None => self.mark.context(),
        }
    }

    /// A value is put last, with a copy of its giver's context. Takes no memory.
    pub fn put(&mut self, value: u64, context: Context)
        requires few { length self.old.chunks < 64 }
        requires numbers { self.old.next + 1 < 2 ^ 32 }
        ensures { self.new ≡ pipe_put self.old value context.seen false }
    {
        let number = self.next;
        self.chunks.push_back_reserved(Chunk {
            number,
            value,
            context,
        });
        self.next += 1;
    }

    /// A value is dropped that nobody will take; it counts all the same.
    pub fn skip(&mut self)
        requires numbers { self.old.next + 1 < 2 ^ 32 }
        ensures { self.new ≡ record self.old { next = self.old.next + 1 } }
    {
        self.next += 1;
    }

    /// The first chunk is taken out.
    pub fn take(&mut self)
        ensures { self.new ≡ pipe_taken self.old }
    {
        let _taken = self.chunks.pop_front();
    }

    /// It is closed: its end mark is numbered after the last chunk, with this context.
    pub fn close(&mut self, context: Context)
        requires numbers { self.old.next + 1 < 2 ^ 32 }
        ensures { self.new ≡ pipe_closed self.old context.seen }
    {
        self.mark = Mark::Fenced(self.next, context);
        self.next += 1;
    }

    /// It ends unfenced.
    pub fn cut_off(&mut self)
        ensures { self.new ≡ pipe_cut_off self.old }
    {
        self.mark = Mark::Bare;
    }
}

impl Chunk {
    // What a take is told of it.
    fn told(&self) -> Front
        ensures { result ≡ Front.Chunk self.now.number self.now.value }
    {
        Front::Chunk(self.number, self.value)
    }

    // The context that lies with it.
    fn context(&self) -> &Context
        ensures { result.now.seen ≡ self.now.context }
    {
        &self.context
    }
}

impl Mark {
    // What a take is told of it.
    fn told(&self) -> Front
        ensures { result ≡ front_mark (mark_of self.now) }
    {
        match self {
            Mark::Open => Front::Nothing,
            Mark::Fenced(number, _) => Front::Fenced(*number),
            Mark::Bare => Front::Bare,
        }
    }

    // The context that lies with it.
    fn context(&self) -> Option<&Context>
        ensures some { IfSome result (λ found. mark_context (mark_of self.now) ≡ Some found.now.seen) }
        ensures none { IfNone result (mark_context (mark_of self.now) ≡ None) }
    {
        match self {
            Mark::Open => None,
            Mark::Fenced(_, context) => Some(context),
            Mark::Bare => None,
        }
    }
}
