//! What a statement waits for.

ghost use Rattle.std.specs.Prelude.{◌≡◌};
ghost use Rattle.rss_machine.specs.Endings.{awaits_statement};

use crate::script::NumberedStatement;
use pipeline_lang::Statement;
use rss_tables::Await;

/// What a stage waits for that cannot make this statement.
pub fn awaits_of_statement(statement: &NumberedStatement) -> Option<Await>
    ensures { result ≡ awaits_statement statement.now }
{
    match statement {
        Statement::Take(_, pipe) => Some(Await::Take(*pipe)),
        Statement::Put(pipe, _) => Some(Await::Put(*pipe)),
        Statement::Wait(child) => Some(Await::Stage(*child)),
        _ => None,
    }
}
