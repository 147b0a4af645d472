//! The statements that concern the script alone.

ghost use Rattle.std.specs.Prelude.{◌≡◌, ◌+◌, ◌<◌, ◌^◌, ◌∷◌, drop, true, get_or, length};
ghost use Rattle.pipeline_lang.specs.declared.script.Statement.TheVariants as statements;
ghost use Rattle.rss_model.specs.Cursor.{after_local, cursor_in_block, cursor_after_end, cursor_past_block};
ghost use Rattle.pipeline_stage.specs.Blocks.{block_of};
ghost use Rattle.pipeline_stage.specs.Statements.{opens_block};

use crate::blocks::Open;
use crate::script::{NumberedStatement, statements_to_end};
use crate::stage::Stage;
use pipeline_lang::{Compare, Statement};
use rss_model::holds;

impl Stage {
    /// It makes its next statement, where that is a `let`, `repeat`, `when` or `end`. Any other leaves
    /// it as it is.
    pub fn step_local(&mut self, script: &[NumberedStatement])
        requires shallow { opens_block (get_or script.now self.old.cursor.position statements.Exit) ≡ true → length self.old.cursor.blocks < 4 }
        ensures { self.new ≡ record self.old {
          cursor = after_local script.now self.old.cursor (get_or script.now self.old.cursor.position statements.Exit);
        } }
    {
        if let Some(statement) = script.get(self.position) {
            self.make_local(script, statement);
        }
    }

    // It makes this statement, which comes next.
    fn make_local(&mut self, script: &[NumberedStatement], statement: &NumberedStatement)
        requires within { self.old.cursor.position < length script.now }
        requires shallow { opens_block statement.now ≡ true → length self.old.cursor.blocks < 4 }
        ensures { self.new ≡ record self.old { cursor = after_local script.now self.old.cursor statement.now } }
    {
        match statement {
            Statement::Let(variable, value) => {
                let value = self.value(value);
                self.set_variable(*variable, value);
                self.position += 1;
            }
            Statement::Repeat(turns) => self.enter_block(*turns),
            Statement::When(test) => self.enter_where(script, test),
            Statement::End => self.leave_block(),
            _ => {}
        }
    }

    // It goes into a block that runs so many times.
    fn enter_block(&mut self, turns: u64)
        requires position { self.old.cursor.position + 1 < 2 ^ 64 }
        requires shallow { length self.old.cursor.blocks < 4 }
        ensures { self.new ≡ record self.old { cursor = cursor_in_block self.old.cursor turns } }
    {
        let first = self.position + 1;
        self.blocks = self.blocks.inside(Open { first, turns });
        self.position = first;
    }

    // It goes into a block where a comparison holds, and else past it.
    fn enter_where(&mut self, script: &[NumberedStatement], test: &Compare<u8>)
        requires within { self.old.cursor.position < length script.now }
        requires shallow { length self.old.cursor.blocks < 4 }
        ensures { self.new ≡ record self.old { cursor = after_local script.now self.old.cursor (statements.When test.now) } }
    {
        if holds(test, &self.variables) {
            self.enter_block(1);
        } else {
            self.pass_block(script);
        }
    }

    // It goes past the block that begins behind its next statement.
    fn pass_block(&mut self, script: &[NumberedStatement])
        requires within { self.old.cursor.position < length script.now }
        ensures { self.new ≡ record self.old { cursor = cursor_past_block script.now self.old.cursor } }
    {
        let inside = self.position + 1;
        self.position = inside + statements_to_end(&script[inside..]);
    }

    // It goes on behind an `end`: into the innermost block again while it has turns left, and else past
    // it.
    fn leave_block(&mut self)
        requires position { self.old.cursor.position + 1 < 2 ^ 64 }
        ensures { self.new ≡ record self.old { cursor = cursor_after_end self.old.cursor self.old.cursor.blocks } }
    {
        match self.blocks.innermost() {
            Some(block) => self.turn(block),
            None => self.position += 1,
        }
    }

    // It goes on behind the `end` of this block, the innermost one.
    fn turn(&mut self, block: Open)
        requires position { self.old.cursor.position + 1 < 2 ^ 64 }
        requires innermost { self.old.cursor.blocks ≡ block_of block ∷ drop 1 self.old.cursor.blocks }
        ensures { self.new ≡ record self.old { cursor = cursor_after_end self.old.cursor self.old.cursor.blocks } }
    {
        let outside = self.blocks.outside();
        if block.turns > 1 {
            self.position = block.first;
            self.blocks = outside.inside(Open {
                first: block.first,
                turns: block.turns - 1,
            });
        } else {
            self.position += 1;
            self.blocks = outside;
        }
    }
}
