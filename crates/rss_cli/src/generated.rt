//! The answer to `gen N`.

ghost use Rattle.std.specs.Prelude.{◌≡◌, IfOk};
ghost use Rattle.rss_machine.specs.Generated.{generated_file};
ghost use Rattle.rss_workload.specs.Spelling.{HasFile};

use crate::answer::Answer;
use crate::status::Status;
use rss_workload::generate;
use std::alloc::{AllocError, Global};

/// The answer that is the generated file of a number.
pub fn generated_answer(alloc: Global, n: u32) -> Result<Answer, AllocError>
    requires file { HasFile n }
    ensures text { IfOk result (λ a. a.text.items ≡ generated_file n) }
    ensures status { IfOk result (λ a. a.status ≡ Status.Done) }
{
    match generate(alloc, n) {
        Ok(text) => Ok(Answer {
            status: Status::Done,
            text,
        }),
        // There is a file of the number, so memory is wanting.
        Err(_) => Err(AllocError),
    }
}
