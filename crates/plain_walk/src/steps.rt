//! What statements make of a walk.

ghost use Rattle.std.specs.Prelude.{◌≡◌, ◌+◌, ◌<◌, ◌^◌, length, IfOk};
ghost use Rattle.rss_model.specs.Formula.{formula_value, guard_value};
ghost use Rattle.rss_model.specs.Cursor.{next_cursor, with_variable, cursor_in_block, cursor_past_block, cursor_after_end};
ghost use Rattle.rss_model.specs.CallStatement.{op_of_statement};
ghost use Rattle.script_laws.specs.Entries.{is_op};
ghost use Rattle.plain_walk.specs.Walks.{mode_of};
ghost use Rattle.rss_model.specs.Walk.{past_statement, after_wait as behind_wait, after_take as behind_take, after_chunk as behind_chunk, after_put as behind_put, after_close as behind_close, next_given};

use crate::operations::makes;
use crate::script::{NumberedStatement, statements_to_end};
use crate::walk::{Mode, StageWalk, set_at};
use pipeline_lang::{Compare, Expr};
use rss_model::{Op, holds, value_of};
use std::alloc::{AllocError, Global};

impl StageWalk {
    /// The value of an expression here.
    pub(crate) fn value_of(&self, expression: &Expr<u8>) -> u64
        ensures { result ≡ formula_value expression.now self.now.cursor.variables }
    {
        value_of(expression, &self.variables)
    }

    /// Whether a comparison holds here.
    pub(crate) fn holds(&self, test: &Compare<u8>) -> bool
        ensures { result ≡ guard_value test.now self.now.cursor.variables }
    {
        holds(test, &self.variables)
    }

    /// Whether a statement makes this operation here.
    pub(crate) fn makes(&self, statement: &NumberedStatement, op: &Op) -> bool
        ensures { result ≡
            is_op (op_of_statement statement.now self.now.cursor.variables) op.now }
    {
        makes(statement, &self.variables, op)
    }

    /// In this mode.
    pub(crate) fn in_mode(&self, alloc: Global, mode: Mode) -> Result<StageWalk, AllocError>
        ensures { IfOk result (λ next. next ≡ record self.now { mode = mode_of mode }) }
    {
        let mut next = self.try_clone(alloc)?;
        next.mode = mode;
        Ok(next)
    }

    /// Behind a statement that changes nothing else.
    pub(crate) fn past_statement(&self, alloc: Global) -> Result<StageWalk, AllocError>
        requires { self.now.cursor.position + 1 < 2 ^ 64 }
        ensures { IfOk result (λ next. next ≡ past_statement self.now) }
    {
        let mut next = self.try_clone(alloc)?;
        next.advance();
        Ok(next)
    }

    /// Behind a statement that sets a variable.
    pub(crate) fn after_set(
        &self,
        alloc: Global,
        variable: u8,
        value: u64,
    ) -> Result<StageWalk, AllocError>
        requires { self.now.cursor.position + 1 < 2 ^ 64 }
        ensures { IfOk result (λ next. next ≡
            record self.now { cursor = next_cursor (with_variable self.now.cursor variable value) }) }
    {
        let mut next = self.try_clone(alloc)?;
        next.set_variable(variable, value);
        next.advance();
        Ok(next)
    }

    /// In a block that runs so many times.
    pub(crate) fn in_block(&self, alloc: Global, turns: u64) -> Result<StageWalk, AllocError>
        requires { self.now.cursor.position + 1 < 2 ^ 64 }
        ensures { IfOk result (λ next. next ≡
            record self.now { cursor = cursor_in_block self.now.cursor turns }) }
    {
        let mut next = self.try_clone(alloc)?;
        next.enter_block(turns)?;
        Ok(next)
    }

    /// Past the block that begins behind this statement.
    pub(crate) fn past_block(
        &self,
        alloc: Global,
        script: &[NumberedStatement],
    ) -> Result<StageWalk, AllocError>
        requires { self.now.cursor.position < length script.now }
        ensures { IfOk result (λ next. next ≡
            record self.now { cursor = cursor_past_block script.now self.now.cursor }) }
    {
        let inside = self.position + 1;
        let mut next = self.try_clone(alloc)?;
        next.position = inside + statements_to_end(&script[inside..]);
        Ok(next)
    }

    /// Behind an `end`.
    pub(crate) fn after_end(&self, alloc: Global) -> Result<StageWalk, AllocError>
        requires { self.now.cursor.position + 1 < 2 ^ 64 }
        ensures { IfOk result (λ next. next ≡
            record self.now { cursor = cursor_after_end self.now.cursor self.now.cursor.blocks }) }
    {
        let mut next = self.try_clone(alloc)?;
        next.leave_block();
        Ok(next)
    }

    /// Behind a `wait` with this status.
    pub(crate) fn after_wait(&self, alloc: Global, status: u64) -> Result<StageWalk, AllocError>
        requires { self.now.cursor.position + 1 < 2 ^ 64 }
        ensures { IfOk result (λ next. next ≡ behind_wait self.now status) }
    {
        self.after_set(alloc, 0, status)
    }

    /// Behind a `take` with this value and status.
    pub(crate) fn after_take(
        &self,
        alloc: Global,
        variable: u8,
        value: u64,
        status: u64,
    ) -> Result<StageWalk, AllocError>
        requires { self.now.cursor.position + 1 < 2 ^ 64 }
        ensures { IfOk result (λ next. next ≡ behind_take self.now variable value status) }
    {
        let mut next = self.try_clone(alloc)?;
        next.set_variable(variable, value);
        next.set_variable(0, status);
        next.advance();
        Ok(next)
    }

    /// Behind a `take` of a chunk with this number and value.
    pub(crate) fn after_chunk(
        &self,
        alloc: Global,
        variable: u8,
        pipe: u8,
        number: u32,
        value: u64,
    ) -> Result<StageWalk, AllocError>
        requires { self.now.cursor.position + 1 < 2 ^ 64 }
        ensures { IfOk result (λ next. next ≡ behind_chunk self.now variable pipe number value) }
    {
        let mut next = self.after_take(alloc, variable, value, 0)?;
        set_at(&mut next.taken, pipe as usize, number);
        Ok(next)
    }

    /// Behind a `put` under this number.
    pub(crate) fn after_put(
        &self,
        alloc: Global,
        pipe: u8,
        number: u32,
    ) -> Result<StageWalk, AllocError>
        requires room { self.now.cursor.position + 1 < 2 ^ 64 }
        requires next { number ≡ next_given self.now pipe }
        ensures { IfOk result (λ next. next ≡ behind_put self.now pipe) }
    {
        let mut next = self.past_statement(alloc)?;
        set_at(&mut next.given, pipe as usize, number);
        Ok(next)
    }

    /// Behind a `close` under this number.
    pub(crate) fn after_close(
        &self,
        alloc: Global,
        pipe: u8,
        number: u32,
    ) -> Result<StageWalk, AllocError>
        requires room { self.now.cursor.position + 1 < 2 ^ 64 }
        requires next { number ≡ next_given self.now pipe }
        ensures { IfOk result (λ next. next ≡ behind_close self.now pipe) }
    {
        let mut next = self.after_put(alloc, pipe, number)?;
        set_at(&mut next.closed, pipe as usize, true);
        Ok(next)
    }
}
