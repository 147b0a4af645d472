//! What a reply makes of a walk.

ghost use Rattle.std.specs.Prelude.{◌≡◌, ◌+◌, ◌<◌, ◌^◌, IfOk, get_or, []};
ghost use Rattle.pipeline_lang.specs.declared.script.Statement.TheVariants as statements;
ghost use Rattle.rss_model.specs.Operation.{values_of};
ghost use Rattle.rss_model.specs.CallStatement.{with_pairs, after_call};
ghost use Rattle.rss_model.specs.Walk.{ready};
ghost use Rattle.plain_walk.specs.Found.{verdict_of};

use crate::bound::guard_holds;
use crate::script::NumberedStatement;
use crate::walk::{Mode, StageWalk};
use pipeline_lang::Statement;
use rss_model::{Guard, Shown};
use rss_names::Key;
use std::alloc::{AllocError, Global};

impl StageWalk {
    // Sets the variables of the pairs to what was shown, in order.
    fn set_pairs(&mut self, pairs: &[(u8, Key)], shown: &[Shown])
        ensures set { self.new ≡ record self.old {
          cursor = with_pairs self.old.cursor pairs.now (values_of shown.now);
        } }
        ensures stays { self.new.cursor.position ≡ self.old.cursor.position }
    {
        for (place, pair) in pairs.iter().enumerate() {
            match shown.get(place) {
                Some(one) => self.set_variable(pair.0, one.value),
                None => return,
            }
        }
    }

    // The status that a transaction sets, if it has a guard.
    fn verdict(&self, guard: &Option<Guard>, pairs: &[(u8, Key)], shown: &[Shown]) -> Option<u64>
        ensures { result ≡ verdict_of guard.now pairs.now self.now.cursor.variables (values_of shown.now) }
    {
        match guard {
            Some(guard) => {
                if guard_holds(pairs, &self.variables, guard, shown) {
                    Some(0)
                } else {
                    Some(1)
                }
            }
            None => None,
        }
    }

    // Goes on behind a statement whose call was shown this.
    fn end_call(&mut self, statement: &NumberedStatement, shown: &[Shown])
        requires { self.old.cursor.position + 1 < 2 ^ 64 }
        ensures { self.new ≡ record self.old {
          cursor = after_call self.old.cursor statement.now (values_of shown.now);
        } }
    {
        match statement {
            Statement::Read(variable, key) => {
                self.set_pairs(&[(*variable, *key)], shown);
                self.advance();
            }
            Statement::Write(_, _) => self.advance(),
            Statement::Snap(pairs) => {
                self.set_pairs(pairs.as_slice(), shown);
                self.advance();
            }
            Statement::Txn(pairs, guard, _) => self.end_txn(pairs.as_slice(), guard, shown),
            _ => {}
        }
    }

    // Goes on behind a read-write transaction that was shown this.
    fn end_txn(&mut self, pairs: &[(u8, Key)], guard: &Option<Guard>, shown: &[Shown])
        requires { self.old.cursor.position + 1 < 2 ^ 64 }
        ensures { self.new ≡ record self.old {
          cursor = after_call self.old.cursor (statements.Txn pairs.now guard.now []) (values_of shown.now);
        } }
    {
        let verdict = self.verdict(guard, pairs, shown);
        self.set_pairs(pairs, shown);
        if let Some(status) = verdict {
            self.set_variable(0, status);
        }
        self.advance();
    }

    /// Behind the statement of a call that was shown this.
    pub(crate) fn after_reply(
        &self,
        alloc: Global,
        script: &[NumberedStatement],
        shown: &[Shown],
    ) -> Result<StageWalk, AllocError>
        ensures { IfOk result (λ next. next ≡ record self.now {
          cursor = after_call self.now.cursor
              (get_or script.now self.now.cursor.position statements.Exit) (values_of shown.now);
          mode = ready;
        }) }
    {
        let mut next = self.try_clone(alloc)?;
        if let Some(statement) = script.get(self.position) {
            next.end_call(statement, shown);
        }
        next.mode = Mode::Ready;
        Ok(next)
    }
}
