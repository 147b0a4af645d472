//! What the statements above a place of a script have left behind.

ghost use Rattle.std.specs.Prelude.{◌≡◌, ◌+◌, ◌<◌, ◌≤◌, ◌++◌, [], ◌∷◌, length, IfOk, OnOk, Ok, None, false, IsTrue};
ghost use Rattle.script_binding.specs.Environment.{status, is_variable, is_new, noted_one, noted, number_of, depth_after, spawns, waits, closes, start, passed};
ghost use Rattle.script_binding.specs.Limits.{over_variables};
ghost use Rattle.std.specs.Str.{bytes_eq};

use crate::mention::{Mention, RawStatement, Role};
use pipeline_lang::{NameTable, Statement};
use rss_names::{Key, Name, Seq, StageId};
use std::alloc::{AllocError, Global};
use std::marker::Model;

/// A statement with numbers.
pub type BoundStatement = Statement<u8, Key, StageId, u8>;

/// The most variables that a script has, without `status`.
const MOST: usize = 32;

/// The variables of a script in the order of their first mention, without `status`: at most 32.
/// Contracts see the list of their names.
#[derive(Drop)]
pub struct Variables {
    names: NameTable,
}

impl Model for Variables {
    ghost use Rattle.std.specs.Prelude.{ℕ, ◌≤◌, List, length};

    ghost Value = { List (List ℕ) };

    ghost view = { λ v. v.names };

    ghost invariant = { λ v. length v.names ≤ 32 };
}

/// What the statements above a place have left behind.
pub struct Environment {
    pub variables: Variables,
    /// How many statements stand above.
    pub statements: u64,
    /// How many blocks are open.
    pub depth: u64,
    /// The stages that the script has spawned.
    pub spawned: Seq<StageId>,
    /// The stages that it has waited for.
    pub waited: Seq<StageId>,
    /// The pipes that it has closed.
    pub closed: Seq<u8>,
}

// Written out, so that who lets an environment go sees one call and none of its parts.
impl Drop for Environment {
    fn drop(self) {
        let Environment {
            variables: _variables,
            statements: _statements,
            depth: _depth,
            spawned: _spawned,
            waited: _waited,
            closed: _closed,
        } = self;
    }
}

// Whether a name is `status`.
fn is_status(name: &Name) -> bool
    ensures { result ≡ bytes_eq name.now status }
{
    name.bytes() == b"status".as_slice()
}

// Whether a name stands for a variable.
fn is_variable(role: Role) -> bool
    ensures { result ≡ is_variable role }
{
    match role {
        Role::Variable => true,
        Role::Register => false,
        Role::Key => false,
        Role::Stage => false,
        Role::Pipe => false,
    }
}

impl Variables {
    /// No variables.
    pub fn new(alloc: Global) -> Variables
        ensures { result ≡ [] }
    {
        Variables {
            names: NameTable::new(alloc),
        }
    }

    /// The number of a variable: 0 for `status`, and for a name that was not mentioned.
    pub fn number(&self, name: &Name) -> u8
        ensures { result ≡ number_of self.now name.now }
    {
        if is_status(name) {
            return 0;
        }
        match self.names.position(name) {
            Some(at) => at as u8 + 1,
            None => 0,
        }
    }

    // Whether a mention is the first one of a variable other than `status`.
    fn is_new(&self, mention: &Mention) -> bool
        ensures { result ≡ is_new self.now mention.now }
    {
        is_variable(mention.role)
            && !is_status(&mention.name)
            && self.names.position(&mention.name).is_none()
    }

    // Takes one mention in, if it is new. There is room for it.
    fn note_one(&mut self, mention: &Mention) -> Result<(), AllocError>
        requires { IsTrue (is_new self.old mention.now) → length self.old < 32 }
        ensures { OnOk result (self.new ≡ noted_one self.old mention.now) }
    {
        if self.is_new(mention) {
            self.names.add(mention.name)?;
        }
        Ok(())
    }

    /// Takes mentions in. Answers the token of the 33rd variable, if one comes.
    pub fn note(&mut self, mentions: &[Mention]) -> Result<Option<u64>, AllocError>
        ensures over { IfOk result (λ over. over ≡ over_variables self.old mentions.now) }
        ensures noted { result ≡ Ok None → self.new ≡ noted self.old mentions.now }
    {
        for mention in mentions {
            if self.is_new(mention) && self.names.len() >= MOST {
                return Ok(Some(mention.token));
            }
            self.note_one(mention)?;
        }
        Ok(None)
    }
}

impl Environment {
    /// Before the first statement.
    pub fn new(alloc: Global) -> Environment
        ensures { result ≡ start }
    {
        Environment {
            variables: Variables::new(alloc),
            statements: 0,
            depth: 0,
            spawned: Seq::new(alloc),
            waited: Seq::new(alloc),
            closed: Seq::new(alloc),
        }
    }

    /// Goes behind a statement, whose variables were noted.
    pub fn pass(&mut self, bound: &BoundStatement) -> Result<(), AllocError>
        requires above { self.old.statements < 256 }
        requires nested { self.old.depth ≤ self.old.statements }
        ensures passed { OnOk result (self.new ≡ passed self.old bound.now) }
        ensures nested { OnOk result (self.new.depth ≤ self.new.statements) }
    {
        self.statements += 1;
        match bound {
            Statement::Spawn(stage) => push_stage(&mut self.spawned, *stage),
            Statement::Wait(stage) => push_stage(&mut self.waited, *stage),
            Statement::Close(pipe) => push_pipe(&mut self.closed, *pipe),
            Statement::Repeat(_) => {
                self.depth += 1;
                Ok(())
            }
            Statement::When(_) => {
                self.depth += 1;
                Ok(())
            }
            Statement::End => {
                self.depth = self.depth.saturating_sub(1);
                Ok(())
            }
            _ => Ok(()),
        }
    }
}

/// Appends a stage.
pub fn push_stage(stages: &mut Seq<StageId>, stage: StageId) -> Result<(), AllocError>
    ensures { OnOk result (stages.new ≡ stages.old ++ stage ∷ []) }
{
    match stages.push(stage) {
        Ok(()) => Ok(()),
        Err(_) => Err(AllocError),
    }
}

// Appends a pipe.
fn push_pipe(pipes: &mut Seq<u8>, pipe: u8) -> Result<(), AllocError>
    ensures { OnOk result (pipes.new ≡ pipes.old ++ pipe ∷ []) }
{
    match pipes.push(pipe) {
        Ok(()) => Ok(()),
        Err(_) => Err(AllocError),
    }
}
