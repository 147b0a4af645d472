//! Stages that the file kills.

ghost use Rattle.std.specs.Prelude.{◌≡◌, ◌==◌, ◌&&◌};
ghost use Rattle.rss_machine.specs.Turns.{kills_at as kills_at_in};

use pipeline_lang::{Config, KillAt};
use rss_names::StageId;

/// Whether the file kills a stage in place of its act of this number.
pub fn kills_at(config: &Config, stage: StageId, act: u32) -> bool
    ensures { result ≡ kills_at_in config.now stage act }
{
    let number = stage.number();
    config
        .kills
        .as_slice()
        .iter()
        .any(|kill| is_kill(kill, number, act))
}

// Whether this is the kill of a stage in place of an act.
fn is_kill(kill: &KillAt, number: u8, act: u32) -> bool
    ensures { result ≡ (kill.now.stage == number && kill.now.act == act) }
{
    kill.stage.number() == number && kill.act == act
}
