//! The least stage that does not run its script.

ghost use Rattle.std.specs.Prelude.{◌≡◌, ℕ, IfOk, IfSome, IfNone};
ghost use Rattle.rss_check.specs.Verdicts.{IsLeast, StraysFromScript};

use pipeline_lang::Config;
use plain_script::script_run;
use rss_model::History;
use rss_names::{MOST_STAGES, StageId};
use std::alloc::{AllocError, Global};

/// The least stage of a file that does not run its script. None where there is none.
pub fn first_stray(
    alloc: Global,
    config: &Config,
    h: &History,
) -> Result<Option<StageId>, AllocError>
    ensures least { IfOk result (λ r. IfSome r (λ stage. IsLeast (StraysFromScript config.now h.now) stage)) }
    ensures none { IfOk result (λ r. IfNone r ((stage : ℕ) → StraysFromScript config.now h.now stage → ⊥)) }
{
    for number in 1..MOST_STAGES + 1 {
        if number as usize > config.bodies.len() {
            return Ok(None);
        }
        let stage = StageId::new(number).unwrap();
        if !script_run(alloc, config, h, stage)? {
            return Ok(Some(stage));
        }
    }
    Ok(None)
}
