//! The statements of a script.

ghost use Rattle.std.specs.Prelude.{◌≡◌, ◌+◌, ◌<◌, ◌≤◌, ◌^◌, length, IfSome, IfNone};
ghost use Rattle.std.specs.Option.{OnSome};
ghost use Rattle.pipeline_lang.specs.Config.{script_of as script_of_stage, statement_at};
ghost use Rattle.pipeline_lang.specs.declared.script.Statement.TheVariants as statement;
ghost use Rattle.rss_model.specs.Cursor.{statements_to_end as to_end, depth_after as depth_behind};

use pipeline_lang::{Config, Statement};
use rss_names::{Key, StageId};

/// A statement over the numbers of variables, keys, stages and pipes.
pub type NumberedStatement = Statement<u8, Key, StageId, u8>;

/// The script of a stage; no statement where the file lacks the stage.
pub fn script_of(config: &Config, stage: StageId) -> &[NumberedStatement]
    ensures { result.now ≡ script_of_stage config.now stage }
{
    match config.bodies.as_slice().get((stage.number() - 1) as usize) {
        Some(body) => body.script.as_slice(),
        None => &[],
    }
}

/// The statement at a position of a stage's script, from 0. None behind the last one, where an exit
/// stands.
pub fn statement_in(config: &Config, stage: StageId, position: usize) -> Option<&NumberedStatement>
    ensures some { IfSome result (λ found. found.now ≡ statement_at config.now stage position) }
    ensures none { IfNone result (statement_at config.now stage position ≡ statement.Exit) }
    ensures within { OnSome result (position + 1 < 2 ^ 64) }
{
    script_of(config, stage).get(position)
}

// How many blocks are open behind a statement, where so many are open before it.
fn depth_after(statement: &NumberedStatement, depth: usize) -> usize
    requires { depth + 1 < 2 ^ 64 }
    ensures same { result ≡ depth_behind statement.now depth }
    ensures most { result ≤ depth + 1 }
{
    match statement {
        Statement::Repeat(_) | Statement::When(_) => depth + 1,
        Statement::End => depth.saturating_sub(1),
        _ => depth,
    }
}

/// How many statements stand up to the `end` that closes the block, with it.
#[tactic(auto, unfolding(rss_model::specs::Cursor::statements_to_end))]
pub(crate) fn statements_to_end(statements: &[NumberedStatement]) -> usize
    ensures same { result ≡ to_end 1 statements.now }
    ensures within { result ≤ length statements.now }
{
    let mut depth = 1;
    for (place, statement) in statements.iter().enumerate() {
        if depth == 0 {
            return place;
        }
        depth = depth_after(statement, depth);
    }
    statements.len()
}
