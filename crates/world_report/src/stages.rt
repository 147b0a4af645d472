//! The lines of the stages.

ghost use Rattle.std.specs.Prelude.{◌≡◌, ◌++◌, OnOk, length};
ghost use Rattle.rss_machine.specs.ReportText.{stage_line, stage_lines};
ghost use Rattle.rss_machine.specs.Standing.{stage_state};
ghost use Rattle.rss_machine.specs.Turns.{next_for};

use event_world::World;
use report_lines::{put, put_stage, put_standing};
use rss_names::StageId;
use std::alloc::{AllocError, Global};

// Appends the line of a stage.
#[tactic(auto, using(crate::proofs::Turned::standing_is), unfolding(rss_machine::specs::ReportText::stage_line))]
fn put_stage_line(
    alloc: Global,
    out: &mut Vec<u8>,
    w: &World,
    stage: StageId,
) -> Result<(), AllocError>
    ensures { OnOk result (out.new.items ≡
        out.old.items ++ stage_line w.now.config stage (next_for w.now.config w.now.state stage) (stage_state w.now.state stage)) }
{
    put(out, b"stage ")?;
    put_stage(out, w.config(), stage)?;
    put(out, b" ")?;
    put_standing(
        alloc,
        out,
        w.config(),
        w.blocked(stage),
        w.stage_state(stage),
    )?;
    put(out, b"\n")
}

/// Appends the lines of the stages, in file order.
pub fn put_stages(alloc: Global, out: &mut Vec<u8>, w: &World) -> Result<(), AllocError>
    ensures { OnOk result (out.new.items ≡
        out.old.items ++ stage_lines w.now.config w.now.state 1 (length w.now.state.stages)) }
{
    for before in 0..w.stages() {
        let stage = StageId::new(before + 1).unwrap();
        put_stage_line(alloc, out, w, stage)?;
    }
    Ok(())
}
