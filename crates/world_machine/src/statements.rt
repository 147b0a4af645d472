//! Statements: what a live stage does that has no call or fence statement under way.

ghost use Rattle.std.specs.Prelude.{◌≡◌, ◌+◌, ◌<◌, ◌≤◌, ◌^◌, true, None, length};
ghost use Rattle.pipeline_lang.specs.Config.{script_of, statement_at};
ghost use Rattle.pipeline_lang.specs.declared.script.Statement.TheVariants as statements;
ghost use Rattle.rss_machine.specs.Effect.{makes};
ghost use Rattle.rss_machine.specs.Enabling.{can_make, next_statement};
ghost use Rattle.rss_machine.specs.Moves.{moves_on, exits};
ghost use Rattle.rss_machine.specs.State.{stage_at};
ghost use Rattle.rss_model.specs.Cursor.{after_local};
ghost use Rattle.world_machine.specs.Machine.{state_of};
ghost use Rattle.world_machine.specs.Rooms.{StatementRoom, exit_seen};
ghost use Rattle.world_machine.specs.Acting.{IsActing, MakesNext};
ghost use Rattle.world_stages.specs.Readies.{IsReadyFor};
ghost use Rattle.world_traffic.specs.View.{IsQuiet};

use crate::machine::Machine;
use pipeline_lang::{Expr, Statement};
use rss_names::StageId;
use truetime::Interval;

impl Machine {
    // A stage makes its next statement, in a step with this reading.
    pub(crate) fn make_statement(&mut self, stage: StageId, at: Interval)
        requires acting { IsActing self.old stage }
        requires allowed { can_make self.old.config (state_of self.old) (next_statement self.old.config (state_of self.old) stage) ≡ true }
        requires room { StatementRoom self.old stage at (next_statement self.old.config (state_of self.old) stage) }
        requires quiet { IsQuiet self.old.traffic }
        ensures effect { state_of self.new ≡ makes self.old.config (state_of self.old) stage at (next_statement self.old.config (state_of self.old) stage) }
        ensures quiet { IsQuiet self.new.traffic }
        ensures config { self.new.config ≡ self.old.config }
    {
        match self.staging.next_statement(&self.config, stage) {
            None => self.exit(stage),
            Some(statement) => match statement {
                Statement::Let(_, _) => self.make_local(stage),
                Statement::Repeat(_) => self.make_local(stage),
                Statement::When(_) => self.make_local(stage),
                Statement::End => self.make_local(stage),
                Statement::Read(_, _) => self.begin_call(stage, at),
                Statement::Write(_, _) => self.begin_call(stage, at),
                Statement::Snap(_) => self.begin_call(stage, at),
                Statement::Txn(_, _, _) => self.begin_call(stage, at),
                Statement::Fence => self.begin_fence(stage, at),
                Statement::Spawn(child) => {
                    let child = *child;
                    self.spawn(stage, child);
                }
                Statement::Wait(child) => {
                    let child = *child;
                    self.wait(stage, child);
                }
                Statement::Put(pipe, value) => {
                    let pipe = *pipe;
                    let value = *value;
                    self.put(stage, pipe, value);
                }
                Statement::Take(variable, pipe) => {
                    let variable = *variable;
                    let pipe = *pipe;
                    self.take_from(stage, variable, pipe);
                }
                Statement::Close(pipe) => {
                    let pipe = *pipe;
                    self.close(stage, pipe);
                }
                Statement::Exit => self.exit(stage),
            },
        }
    }

    // A stage makes a statement that concerns its script alone.
    fn make_local(&mut self, stage: StageId)
        requires acting { IsActing self.old stage }
        ensures moves { state_of self.new ≡ moves_on (state_of self.old) stage (after_local (script_of self.old.config stage) (stage_at (state_of self.old) stage).cursor (next_statement self.old.config (state_of self.old) stage)) }
        ensures others { self.new ≡ record self.old { staging = self.new.staging } }
    {
        self.staging.step_local(&self.config, stage);
    }

    // A stage spawns another.
    #[tactic(auto, using(crate::proofs::Makes::later))]
    fn spawn(&mut self, stage: StageId, child: StageId)
        requires acting { IsActing self.old stage }
        requires next { next_statement self.old.config (state_of self.old) stage ≡ statements.Spawn child }
        requires position { (stage_at (state_of self.old) stage).cursor.position + 1 < 2 ^ 64 }
        requires ready { IsReadyFor self.old.config self.old.staging stage (exit_seen (state_of self.old) (statements.Spawn child)) (statements.Spawn child) }
        ensures effect { MakesNext self.old self.new stage (statements.Spawn child) }
        ensures others { self.new ≡ record self.old { staging = self.new.staging } }
    {
        self.staging.spawn(stage, child);
    }

    // A stage waits for a child that is done.
    #[tactic(auto, using(crate::proofs::Makes::waited))]
    fn wait(&mut self, stage: StageId, child: StageId)
        requires acting { IsActing self.old stage }
        requires next { next_statement self.old.config (state_of self.old) stage ≡ statements.Wait child }
        requires position { (stage_at (state_of self.old) stage).cursor.position + 1 < 2 ^ 64 }
        requires ready { IsReadyFor self.old.config self.old.staging stage (exit_seen (state_of self.old) (statements.Wait child)) (statements.Wait child) }
        ensures effect { MakesNext self.old self.new stage (statements.Wait child) }
        ensures others { self.new ≡ record self.old { staging = self.new.staging } }
    {
        let state = self.stage_state(child);
        self.staging.wait(stage, child, state);
    }

    // A stage puts the value of an expression into a pipe; where its taker is settled, it is dropped.
    #[tactic(auto, using(crate::proofs::Makes::put_fits, crate::proofs::Makes::few_chunks))]
    fn put(&mut self, stage: StageId, pipe: u8, value: Expr<u8>)
        requires acting { IsActing self.old stage }
        requires next { next_statement self.old.config (state_of self.old) stage ≡ statements.Put pipe value }
        requires position { (stage_at (state_of self.old) stage).cursor.position + 1 < 2 ^ 64 }
        requires allowed { can_make self.old.config (state_of self.old) (statements.Put pipe value) ≡ true }
        requires ready { IsReadyFor self.old.config self.old.staging stage (exit_seen (state_of self.old) (statements.Put pipe value)) (statements.Put pipe value) }
        ensures effect { MakesNext self.old self.new stage (statements.Put pipe value) }
        ensures others { self.new ≡ record self.old { staging = self.new.staging } }
    {
        let dropped = self.is_taker_settled(pipe);
        self.staging.put(stage, pipe, &value, dropped);
    }

    // A stage takes the first chunk of a pipe into a variable, or meets its end mark.
    #[tactic(auto, using(crate::proofs::Makes::took))]
    fn take_from(&mut self, stage: StageId, variable: u8, pipe: u8)
        requires acting { IsActing self.old stage }
        requires position { (stage_at (state_of self.old) stage).cursor.position + 1 < 2 ^ 64 }
        requires ready { IsReadyFor self.old.config self.old.staging stage (exit_seen (state_of self.old) (statements.Take variable pipe)) (statements.Take variable pipe) }
        ensures effect { MakesNext self.old self.new stage (statements.Take variable pipe) }
        ensures others { self.new ≡ record self.old { staging = self.new.staging } }
    {
        self.staging.take(stage, variable, pipe);
    }

    // A stage closes a pipe.
    fn close(&mut self, stage: StageId, pipe: u8)
        requires acting { IsActing self.old stage }
        requires position { (stage_at (state_of self.old) stage).cursor.position + 1 < 2 ^ 64 }
        requires ready { IsReadyFor self.old.config self.old.staging stage (exit_seen (state_of self.old) (statements.Close pipe)) (statements.Close pipe) }
        ensures effect { MakesNext self.old self.new stage (statements.Close pipe) }
        ensures others { self.new ≡ record self.old { staging = self.new.staging } }
    {
        self.staging.close(stage, pipe);
    }

    // A stage exits.
    #[tactic(auto, using(crate::proofs::Makes::exited))]
    fn exit(&mut self, stage: StageId)
        requires acting { IsActing self.old stage }
        requires ready { IsReadyFor self.old.config self.old.staging stage (exit_seen (state_of self.old) statements.Exit) statements.Exit }
        ensures exits { state_of self.new ≡ exits self.old.config (state_of self.old) stage }
        ensures others { self.new ≡ record self.old { staging = self.new.staging } }
    {
        self.staging.exit(&self.config, stage);
    }
}
