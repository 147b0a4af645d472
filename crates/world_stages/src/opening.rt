//! The stages and pipes before the first step.

ghost use Rattle.std.specs.Prelude.{◌≡◌, ◌+◌, ◌≤◌, [], IfOk, length, replicate, if◌then◌else◌};
ghost use Rattle.std.specs.List.{list_any};
ghost use Rattle.rss_machine.specs.State.{start, stages_from, opening_stage};
ghost use Rattle.rss_machine.specs.declared.state.Life.TheVariants.{Unborn, Live};
ghost use Rattle.rss_model.specs.Scripts.{is_spawned, spawns as statement_spawns};
ghost use Rattle.rss_tables.specs.Pipes.{opening_pipe};
ghost use Rattle.world_parts.specs.Parts.{staging_of};

use crate::pipes::Pipes;
use crate::stages::Stages;
use crate::staging::Staging;
use pipeline_lang::{Config, Statement};
use pipeline_stage::{Copies, NumberedStatement, Pipe, Stage};
use rss_machine::Life;
use std::alloc::{AllocError, Global};

impl Staging {
    /// The stages and pipes of a file before the first step: stages that no script spawns live. An `Err`
    /// is want of memory.
    pub fn new(alloc: Global, config: &Config) -> Result<Staging, AllocError>
        requires stages { length config.now.bodies ≤ 16 }
        ensures { IfOk result (λ s. s.staging ≡ staging_of (start config.now)) }
    {
        let stages = opening_stages(alloc, config)?;
        let pipes = opening_pipes(alloc, config.pipe_ends.len())?;
        Ok(Staging {
            stages,
            pipes,
            history: Vec::new(alloc),
            spare: Copies::none(alloc),
            alloc,
        })
    }
}

// The stages of a file, in order.
fn opening_stages(alloc: Global, config: &Config) -> Result<Stages, AllocError>
    requires stages { length config.now.bodies ≤ 16 }
    ensures { IfOk result (λ stages. stages ≡ stages_from config.now 1 (length config.now.bodies)) }
{
    let mut stages = Vec::new(alloc);
    for place in 0..config.bodies.len() {
        let stage = Stage::new(alloc, opening_life(config, place as u8 + 1))?;
        stages.push(stage)?;
    }
    Ok(Stages::new(stages))
}

// The life of the stage of a number before the first step.
fn opening_life(config: &Config, number: u8) -> Life
    ensures { result ≡ (if is_spawned config.now number then Unborn else Live) }
{
    if is_spawned_in(config, number) {
        Life::Unborn
    } else {
        Life::Live
    }
}

// Whether some script spawns the stage of a number.
fn is_spawned_in(config: &Config, number: u8) -> bool
    ensures { result ≡ is_spawned config.now number }
{
    config
        .bodies
        .as_slice()
        .iter()
        .any(|body| script_spawns(number, body.script.as_slice()))
}

/// Whether a script spawns the stage of a number.
pub(crate) fn script_spawns(number: u8, script: &[NumberedStatement]) -> bool
    ensures { result ≡ list_any (statement_spawns number) script.now }
{
    script
        .iter()
        .any(|statement| is_spawn_of(number, statement))
}

// Whether a statement spawns the stage of a number.
fn is_spawn_of(number: u8, statement: &NumberedStatement) -> bool
    ensures { result ≡ statement_spawns number statement.now }
{
    match statement {
        Statement::Spawn(child) => child.number() == number,
        _ => false,
    }
}

// So many pipes into which nothing was put yet.
fn opening_pipes(alloc: Global, number: usize) -> Result<Pipes, AllocError>
    ensures { IfOk result (λ pipes. pipes ≡ replicate number opening_pipe) }
{
    let mut pipes = Vec::new(alloc);
    for _pipe in 0..number {
        let pipe = Pipe::new(alloc)?;
        pipes.push(pipe)?;
    }
    Ok(Pipes::new(pipes))
}
