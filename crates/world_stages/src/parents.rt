//! Which stage spawns which.

ghost use Rattle.std.specs.Prelude.{◌≡◌, ◌+◌, ◌≤◌, get_or, length, IfOk};
ghost use Rattle.pipeline_lang.specs.declared.config.Body.{Body as BodyRow};
ghost use Rattle.rss_machine.specs.Standing.{parent_from, parent_of};
ghost use Rattle.world_stages.specs.Settled.{parents_of};

use crate::opening::script_spawns;
use pipeline_lang::{Body, Config};
use std::alloc::{AllocError, Global};
use std::marker::Model;

/// The stage that spawns each stage of a file, by its number; 0 for a stage that none spawns. Contracts
/// see the list.
pub struct Parents {
    parents: Vec<u8>,
}

// Written out, so that who lets it go sees one call.
impl Drop for Parents {
    fn drop(self) {
        let Parents { parents: _parents } = self;
    }
}

impl Model for Parents {
    ghost use Rattle.std.specs.Prelude.{ℕ, List};

    ghost Value = { List ℕ };

    ghost view = { λ p. p.parents.items };
}

impl Parents {
    /// The parents of a file's stages. An `Err` is want of memory.
    pub fn new(alloc: Global, config: &Config) -> Result<Parents, AllocError>
        requires stages { length config.now.bodies ≤ 16 }
        ensures { IfOk result (λ parents. parents ≡ parents_of config.now) }
    {
        let mut parents = Vec::new(alloc);
        for number in 0..config.bodies.len() + 1 {
            parents.push(parent_in(config.bodies.as_slice(), number as u8))?;
        }
        Ok(Parents { parents })
    }

    /// The number of the stage that spawns the stage of a number, or 0.
    pub fn of(&self, number: u8) -> u8
        ensures { result ≡ get_or self.now number 0 }
    {
        match self.parents.get(number as usize) {
            Some(parent) => *parent,
            None => 0,
        }
    }
}

// The number of the first stage whose script spawns the stage of a number, or 0.
fn parent_in(bodies: &[Body], number: u8) -> u8
    requires few { length bodies.now ≤ 16 }
    ensures { result ≡ parent_from 1 number bodies.now }
{
    for (place, body) in bodies.iter().enumerate() {
        if script_spawns(number, body.script.as_slice()) {
            return place as u8 + 1;
        }
    }
    0
}
