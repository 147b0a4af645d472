//! What a reply makes of a stage.

ghost use Rattle.std.specs.Prelude.{◌≡◌, ◌+◌, ◌<◌, ◌^◌, get_or, [], None};
ghost use Rattle.pipeline_lang.specs.declared.script.Statement.TheVariants as statements;
ghost use Rattle.rss_model.specs.Operation.{values_of};
ghost use Rattle.rss_model.specs.CallStatement.{with_pairs, after_call};
ghost use Rattle.pipeline_stage.specs.Statements.{verdict_of};

use crate::bound::guard_holds;
use crate::script::NumberedStatement;
use crate::stage::Stage;
use causal_context::Context;
use pipeline_lang::Statement;
use rss_model::{Guard, Shown};
use rss_names::Key;

impl Stage {
    /// Its call ends: it goes on behind its next statement, which was shown this, and has seen this.
    pub fn end_call(&mut self, script: &[NumberedStatement], shown: &[Shown], context: Context)
        ensures { self.new ≡ record self.old {
          cursor = after_call self.old.cursor (get_or script.now self.old.cursor.position statements.Exit) (values_of shown.now);
          context = context.seen;
          owner = None;
        } }
    {
        if let Some(statement) = script.get(self.position) {
            self.go_behind(statement, shown);
        }
        self.context = context;
        self.owner = None;
    }

    // It goes on behind a statement whose call was shown this.
    fn go_behind(&mut self, statement: &NumberedStatement, shown: &[Shown])
        requires position { self.old.cursor.position + 1 < 2 ^ 64 }
        ensures { self.new ≡ record self.old { cursor = after_call self.old.cursor statement.now (values_of shown.now) } }
    {
        match statement {
            Statement::Read(variable, key) => {
                self.set_pairs(&[(*variable, *key)], shown);
                self.go_on();
            }
            Statement::Write(_, _) => self.go_on(),
            Statement::Snap(pairs) => {
                self.set_pairs(pairs.as_slice(), shown);
                self.go_on();
            }
            Statement::Txn(pairs, guard, _) => self.go_behind_txn(pairs.as_slice(), guard, shown),
            _ => {}
        }
    }

    // It goes on behind a read-write transaction that was shown this.
    fn go_behind_txn(&mut self, pairs: &[(u8, Key)], guard: &Option<Guard>, shown: &[Shown])
        requires position { self.old.cursor.position + 1 < 2 ^ 64 }
        ensures { self.new ≡ record self.old {
          cursor = after_call self.old.cursor (statements.Txn pairs.now guard.now []) (values_of shown.now);
        } }
    {
        let verdict = self.verdict(guard, pairs, shown);
        self.set_pairs(pairs, shown);
        if let Some(status) = verdict {
            self.set_variable(0, status);
        }
        self.go_on();
    }

    // The status that a transaction sets, if it has a guard.
    fn verdict(&self, guard: &Option<Guard>, pairs: &[(u8, Key)], shown: &[Shown]) -> Option<u64>
        ensures { result ≡ verdict_of guard.now pairs.now self.now.cursor.variables (values_of shown.now) }
    {
        match guard {
            Some(guard) => {
                if guard_holds(pairs, &self.variables, guard, shown) {
                    Some(0)
                } else {
                    Some(1)
                }
            }
            None => None,
        }
    }

    // The variables of the pairs are set to what was shown, in order.
    fn set_pairs(&mut self, pairs: &[(u8, Key)], shown: &[Shown])
        ensures set { self.new ≡ record self.old { cursor = with_pairs self.old.cursor pairs.now (values_of shown.now) } }
        ensures stays { self.new.cursor.position ≡ self.old.cursor.position }
    {
        for (place, pair) in pairs.iter().enumerate() {
            match shown.get(place) {
                Some(one) => self.set_variable(pair.0, one.value),
                None => return,
            }
        }
    }
}
