//! What is told of a World, by the form that is asked for.

ghost use Rattle.std.specs.Prelude.{◌≡◌, ◌++◌, IfOk};
ghost use Rattle.rss_machine.specs.ReportText.{report_of};
ghost use Rattle.rss_machine.specs.Run.{steps_of};
ghost use Rattle.log_laws.specs.Laws.{tail_of};
ghost use Rattle.rss_cli.specs.Reported.{IsReport};

use command_words::Form;
use event_world::World;
use std::alloc::{AllocError, Global};
use step_text::print_steps;
use world_report::{report, summary};

/// What a form tells of a World.
pub fn told(alloc: Global, form: Form, world: &World) -> Result<Vec<u8>, AllocError>
    ensures { IfOk result (λ text. IsReport form world.now.config world.now.state (steps_of world.now.log) text.items) }
{
    match form {
        Form::Plain => report(alloc, world),
        Form::Log => report_and_log(alloc, world),
        Form::Sum => summary(alloc, world),
    }
}

// The report, and behind it the tail by which the steps can be made again.
fn report_and_log(alloc: Global, world: &World) -> Result<Vec<u8>, AllocError>
    ensures { IfOk result (λ text. text.items ≡
        report_of world.now.config world.now.state ++ tail_of (steps_of world.now.log)) }
{
    let mut text = report(alloc, world)?;
    text.extend_from_slice(b"%steps\n")?;
    let steps = print_steps(alloc, world.log())?;
    text.extend_from_slice(steps.as_slice())?;
    Ok(text)
}
