//! Copies of one context, made before they are needed.

ghost use Rattle.std.specs.Prelude.{◌≡◌, ◌+◌, ◌<◌, ◌≤◌, IfOk};
ghost use Rattle.causal_context.specs.Seen.{context_joined, fenced_outside};
ghost use Rattle.pipeline_stage.specs.CopiesView.{AreCopies};

use causal_context::Context;
use std::alloc::{AllocError, Global};
use std::marker::Model;

/// What one has seen joined with what the other has. An `Err` is want of memory.
pub fn joined(alloc: Global, one: &Context, other: &Context) -> Result<Context, AllocError>
    ensures { IfOk result (λ both. both.seen ≡ context_joined one.now.seen other.now.seen) }
{
    let mut both = one.try_clone(alloc)?;
    both.join(other)?;
    Ok(both)
}

/// Copies of one context, made before they are needed, so that a copy takes no memory. Contracts see
/// what was seen, and how many copies there are.
pub struct Copies {
    copies: Vec<Context>,
}

// Written out, so that a caller who lets copies go sees one call and none of their parts.
impl Drop for Copies {
    fn drop(self) {
        let Copies { copies: _copies } = self;
    }
}

impl Model for Copies {
    ghost use Rattle.std.specs.Prelude.{◌≡◌, get_or, vec_len};
    ghost use Rattle.std.specs.List.{All};
    ghost use Rattle.causal_context.specs.ContextView.{ContextView, empty_context};
    ghost use Rattle.pipeline_stage.specs.CopiesView.{CopiesView};

    ghost Value = { CopiesView };

    ghost view = { λ c. record { seen = (get_or c.copies.items 0 empty_context).seen; count = vec_len c.copies } };

    ghost invariant = { λ c. All (λ (copy : ContextView). copy.seen ≡ (get_or c.copies.items 0 empty_context).seen) c.copies.items };
}

impl Copies {
    /// No copy.
    pub fn none(alloc: Global) -> Copies
        ensures { result.count ≡ 0 }
    {
        Copies {
            copies: Vec::new(alloc),
        }
    }

    /// This one alone.
    pub fn one(alloc: Global, context: Context) -> Result<Copies, AllocError>
        ensures { IfOk result (λ copies. AreCopies copies context.seen 1) }
    {
        let mut copies = Vec::new(alloc);
        copies.push(context)?;
        Ok(Copies { copies })
    }

    /// This many copies of a context, and one where that is 0. An `Err` is want of memory.
    pub fn of(alloc: Global, context: &Context, count: usize) -> Result<Copies, AllocError>
        ensures { IfOk result (λ copies. AreCopies copies context.now.seen count) }
    {
        let mut copies = Vec::new(alloc);
        let copy = context.try_clone(alloc)?;
        copies.push(copy)?;
        while copies.len() < count {
            let copy = context.try_clone(alloc)?;
            copies.push(copy)?;
        }
        Ok(Copies { copies })
    }

    /// This many copies of a context after every service was fenced, and one where that is 0. An `Err`
    /// is want of memory.
    pub fn fenced(alloc: Global, context: &Context, count: usize) -> Result<Copies, AllocError>
        ensures { IfOk result (λ copies. AreCopies copies (fenced_outside context.now.seen) count) }
    {
        let mut fenced = context.try_clone(alloc)?;
        fenced.fenced_outside();
        Copies::of(alloc, &fenced, count)
    }

    /// How many there are.
    pub fn count(&self) -> usize
        ensures { result ≡ self.now.count }
    {
        self.copies.len()
    }

    /// Takes one of them out. Takes no memory.
    pub fn take(&mut self) -> Context
        requires some { 0 < self.old.count }
        ensures seen { result.seen ≡ self.old.seen }
        ensures left { self.new.count + 1 ≡ self.old.count }
        ensures others { 0 < self.new.count → self.new.seen ≡ self.old.seen }
    {
        self.copies.pop().unwrap()
    }
}
