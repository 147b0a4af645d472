//! A stage: its life, where its script stands, and what it has seen.

ghost use Rattle.std.specs.Prelude.{◌≡◌, ◌+◌, ◌<◌, ◌^◌, Some, None, IfOk, slice_index};
ghost use Rattle.rss_machine.specs.Effect.{with_status, after_take};
ghost use Rattle.rss_machine.specs.Standing.{life_state, is_live as lives, is_over as has_ended};
ghost use Rattle.rss_machine.specs.State.{opening_stage};
ghost use Rattle.rss_machine.specs.declared.state.Life.TheVariants.{Live, Over};
ghost use Rattle.rss_model.specs.Cursor.{next_cursor, with_variable};
ghost use Rattle.rss_model.specs.Formula.{formula_value};
ghost use Rattle.rss_model.specs.Walk.{all_zero};
ghost use Rattle.rss_model.specs.declared.history.How.TheVariants.{Exited};

use crate::blocks::Blocks;
use causal_context::Context;
use pipeline_lang::Expr;
use rss_machine::{Life, StageState};
use rss_model::{How, value_at, value_of};
use rss_tables::StubEnd;
use std::alloc::{AllocError, Global};
use std::marker::Model;

/// The number of variables of a script.
const VARIABLES: usize = 256;

/// A stage: its life, where its script stands, what it has seen, its call or fence statement under way,
/// how many acts it made, and its stub. Contracts see it as the tables' stage.
pub struct Stage {
    pub(crate) life: Life,
    pub(crate) position: usize,
    pub(crate) blocks: Blocks,
    pub(crate) variables: Vec<u64>,
    pub(crate) context: Context,
    pub(crate) owner: Option<u32>,
    pub(crate) acts: u32,
    pub(crate) stub: Option<u32>,
}

// Written out, so that a caller who lets a stage go sees one call and none of its parts.
impl Drop for Stage {
    fn drop(self) {
        let Stage {
            life: _life,
            position: _position,
            blocks: _blocks,
            variables: _variables,
            context: _context,
            owner: _owner,
            acts: _acts,
            stub: _stub,
        } = self;
    }
}

impl Model for Stage {
    ghost use Rattle.rss_machine.specs.State.{Stage as StageRow};
    ghost use Rattle.pipeline_stage.specs.Blocks.{blocks_of};

    ghost Value = { StageRow };

    ghost view = { λ s. record { life = s.life; cursor = record { position = s.position; blocks = blocks_of s.blocks; variables = s.variables.items }; context = s.context.seen; owner = s.owner; acts = s.acts; stub = s.stub } };
}

impl Stage {
    /// A stage of this life that has made nothing yet.
    pub fn new(alloc: Global, life: Life) -> Result<Stage, AllocError>
        ensures { IfOk result (λ s. s ≡ opening_stage life) }
    {
        let variables = opening_variables(alloc)?;
        Ok(Stage {
            life,
            position: 0,
            blocks: Blocks::None,
            variables,
            context: Context::empty(alloc),
            owner: None,
            acts: 0,
            stub: None,
        })
    }

    /// Its life.
    pub fn life(&self) -> Life
        ensures { result ≡ self.now.life }
    {
        self.life
    }

    /// Whether it lives.
    pub fn is_live(&self) -> bool
        ensures { result ≡ lives self.now.life }
    {
        matches!(self.life, Life::Live)
    }

    /// Whether it is over.
    pub fn is_over(&self) -> bool
        ensures { result ≡ has_ended self.now.life }
    {
        matches!(self.life, Life::Over(_))
    }

    /// The place of its next statement in its script, from 0.
    pub fn position(&self) -> usize
        ensures { result ≡ self.now.cursor.position }
    {
        self.position
    }

    /// What it has seen.
    pub fn context(&self) -> &Context
        ensures { result.now.seen ≡ self.now.context }
    {
        &self.context
    }

    /// The number of its call or fence statement that is under way.
    pub fn owner(&self) -> Option<u32>
        ensures { result ≡ self.now.owner }
    {
        self.owner
    }

    /// The number of acts that it made.
    pub fn acts(&self) -> u32
        ensures { result ≡ self.now.acts }
    {
        self.acts
    }

    /// The owner number of its stub, if it died.
    pub fn stub(&self) -> Option<u32>
        ensures { result ≡ self.now.stub }
    {
        self.stub
    }

    /// How it stands, where its stub has ended so.
    pub fn standing(&self, end: Option<StubEnd>) -> StageState
        ensures { result ≡ life_state self.now.life end }
    {
        match self.life {
            Life::Unborn => StageState::Unborn,
            Life::Live => StageState::Live,
            Life::Over(How::Exited) => StageState::Exited,
            Life::Over(how) => StageState::Ended(how, end),
        }
    }

    /// Its variables by number; `status` is variable 0.
    pub fn variables(&self) -> &[u64]
        ensures { result.now ≡ self.now.cursor.variables }
    {
        self.variables.as_slice()
    }

    /// The status that its last statement set.
    pub fn status(&self) -> u64
        ensures { result ≡ slice_index self.now.cursor.variables 0 }
    {
        value_at(&self.variables, 0)
    }

    /// The value of an expression over its variables; sums and differences wrap at 2^64.
    pub fn value(&self, expression: &Expr<u8>) -> u64
        ensures { result ≡ formula_value expression.now self.now.cursor.variables }
    {
        value_of(expression, &self.variables)
    }

    /// It makes one act more.
    pub fn count_act(&mut self)
        requires few { self.old.acts + 1 < 2 ^ 32 }
        ensures { self.new ≡ record self.old { acts = self.old.acts + 1 } }
    {
        self.acts += 1;
    }

    /// It goes on to its next statement.
    pub fn go_on(&mut self)
        requires position { self.old.cursor.position + 1 < 2 ^ 64 }
        ensures { self.new ≡ record self.old { cursor = next_cursor self.old.cursor } }
    {
        self.position += 1;
    }

    /// It goes on behind a statement that sets this status.
    pub fn go_on_with_status(&mut self, status: u64)
        requires position { self.old.cursor.position + 1 < 2 ^ 64 }
        ensures { self.new ≡ record self.old { cursor = with_status self.old.cursor status } }
    {
        self.set_variable(0, status);
        self.position += 1;
    }

    /// It goes on behind a `take` that gives a variable this value, with this status.
    pub fn go_on_taken(&mut self, variable: u8, value: u64, status: u64)
        requires position { self.old.cursor.position + 1 < 2 ^ 64 }
        ensures { self.new ≡ record self.old { cursor = after_take self.old.cursor variable value status } }
    {
        self.set_variable(variable, value);
        self.go_on_with_status(status);
    }

    /// It goes on behind a statement that sets this status, having seen this.
    pub fn receive_exit(&mut self, status: u64, context: Context)
        requires position { self.old.cursor.position + 1 < 2 ^ 64 }
        ensures { self.new ≡ record self.old { cursor = with_status self.old.cursor status; context = context.seen } }
    {
        self.go_on_with_status(status);
        self.context = context;
    }

    /// It goes on behind a `take` that gives a variable this value, with this status, having seen this.
    pub fn receive_taken(&mut self, variable: u8, value: u64, status: u64, context: Context)
        requires position { self.old.cursor.position + 1 < 2 ^ 64 }
        ensures { self.new ≡ record self.old { cursor = after_take self.old.cursor variable value status; context = context.seen } }
    {
        self.go_on_taken(variable, value, status);
        self.context = context;
    }

    /// It is born, having seen this.
    pub fn be_born(&mut self, context: Context)
        ensures { self.new ≡ record self.old { life = Live; context = context.seen } }
    {
        self.life = Life::Live;
        self.context = context;
    }

    /// It begins a call or a fence statement.
    pub fn begin(&mut self, owner: u32)
        ensures { self.new ≡ record self.old { owner = Some owner } }
    {
        self.owner = Some(owner);
    }

    /// Its fence statement ends: it goes on to the next one, having seen this.
    pub fn end_fence(&mut self, context: Context)
        requires position { self.old.cursor.position + 1 < 2 ^ 64 }
        ensures { self.new ≡ record self.old { cursor = next_cursor self.old.cursor; context = context.seen; owner = None } }
    {
        self.position += 1;
        self.context = context;
        self.owner = None;
    }

    /// It exits.
    pub fn exit(&mut self)
        ensures { self.new ≡ record self.old { life = Over Exited } }
    {
        self.life = Life::Over(How::Exited);
    }

    /// It dies: what it had under way is closed, and the owner of this number is its stub.
    pub fn die(&mut self, how: How, stub: u32)
        ensures { self.new ≡ record self.old { life = Over how; owner = None; stub = Some stub } }
    {
        self.life = Life::Over(how);
        self.owner = None;
        self.stub = Some(stub);
    }

    // A variable is set.
    pub(crate) fn set_variable(&mut self, variable: u8, value: u64)
        ensures { self.new ≡ record self.old { cursor = with_variable self.old.cursor variable value } }
    {
        if let Some(place) = self.variables.get_mut(variable as usize) {
            *place = value;
        }
    }
}

// The variables of a script before its first statement.
#[tactic(auto, unfolding(rss_model::specs::Walk::all_zero))]
fn opening_variables(alloc: Global) -> Result<Vec<u64>, AllocError>
    ensures { IfOk result (λ variables. variables.items ≡ all_zero) }
{
    Ok(vec![in alloc; 0; VARIABLES]?)
}
