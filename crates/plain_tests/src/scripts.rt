//! Histories in which stages run their scripts, each also with one change after which one does not.

use crate::telling::{Q, R, Telling};
use pipeline_lang::{Body, Compare, Config, Expr, NameTable, PipeEnds, Script, Statement, Term};
use plain_script::script_run;
use rss_model::{History, How, Op, Shown, Token};
use rss_names::{Key, Seq, StageId};
use std::alloc::{AllocError, Global};
use std::test::Fail;

// The expression of a number.
fn number(n: u64) -> Expr<u8> {
    Expr::One(Term::Number(n))
}

// The expression of a variable.
fn value(variable: u8) -> Expr<u8> {
    Expr::One(Term::Variable(variable))
}

/// A script that is being written; statements whose stage is out of range are left out.
#[derive(Drop)]
struct Writing {
    statements: Vec<Statement<u8, Key, StageId, u8>>,
}

impl Writing {
    fn new(alloc: Global) -> Writing {
        Writing {
            statements: Vec::new(alloc),
        }
    }

    fn add(&mut self, statement: Statement<u8, Key, StageId, u8>) -> Result<(), AllocError> {
        self.statements.push(statement)?;
        Ok(())
    }

    fn spawn(&mut self, stage: u8) -> Result<(), AllocError> {
        match StageId::new(stage) {
            Some(stage) => self.add(Statement::Spawn(stage)),
            None => Ok(()),
        }
    }

    fn wait(&mut self, stage: u8) -> Result<(), AllocError> {
        match StageId::new(stage) {
            Some(stage) => self.add(Statement::Wait(stage)),
            None => Ok(()),
        }
    }

    fn written(self) -> Script {
        let Writing { statements } = self;
        Seq::from_vec(statements)
    }
}

// Stage 1 spawns stage 2.
fn spawn_second(telling: &mut Telling) -> Result<(), AllocError> {
    if let Some(second) = StageId::new(2) {
        telling.give(1, Token::Spawn(second))?;
        telling.get(2, Token::Spawn(second))?;
    }
    Ok(())
}

// Stage 1 gets the exit of stage 2.
fn wait_for_second(telling: &mut Telling) -> Result<(), AllocError> {
    match StageId::new(2) {
        Some(second) => telling.get(1, Token::Exit(second)),
        None => Ok(()),
    }
}

// One pipe, from stage 1 to stage 2.
fn one_pipe(alloc: Global) -> Result<Seq<PipeEnds>, AllocError> {
    let mut ends = Vec::new(alloc);
    if let Some(giver) = StageId::new(1)
        && let Some(taker) = StageId::new(2)
    {
        ends.push(PipeEnds {
            giver,
            taker,
            capacity: 1,
        })?;
    }
    Ok(Seq::from_vec(ends))
}

// What two stages run.
fn bodies(alloc: Global, first: Script, second: Script) -> Result<Seq<Body>, AllocError> {
    let mut bodies = Vec::new(alloc);
    bodies.push(Body {
        script: first,
        earliest_end: 0,
    })?;
    bodies.push(Body {
        script: second,
        earliest_end: 0,
    })?;
    Ok(Seq::from_vec(bodies))
}

// A file of two stages and one pipe, of which nothing else is asked.
fn file(alloc: Global, bodies: Seq<Body>, pipe_ends: Seq<PipeEnds>) -> Config {
    Config {
        tries: 3,
        max_steps: 100,
        drivers: 2,
        services: Seq::new(alloc),
        registers: NameTable::new(alloc),
        register_services: Seq::new(alloc),
        shards: NameTable::new(alloc),
        shard_services: Seq::new(alloc),
        keys: NameTable::new(alloc),
        homes: Seq::new(alloc),
        pipes: NameTable::new(alloc),
        pipe_ends,
        stages: NameTable::new(alloc),
        bodies,
        withholds: Seq::new(alloc),
        kills: Seq::new(alloc),
    }
}

// Whether the two stages run their scripts.
fn both_run(alloc: Global, config: &Config, h: &History) -> Result<(bool, bool), AllocError> {
    match (StageId::new(1), StageId::new(2)) {
        (Some(first), Some(second)) => Ok((
            script_run(alloc, config, h, first)?,
            script_run(alloc, config, h, second)?,
        )),
        _ => Ok((false, false)),
    }
}

// Stage 1 puts a number and one more into the pipe, by a block that runs twice.
fn putting_twice(alloc: Global) -> Result<Script, AllocError> {
    let mut script = Writing::new(alloc);
    script.add(Statement::Let(1, number(7)))?;
    script.add(Statement::Repeat(2))?;
    script.add(Statement::Put(1, value(1)))?;
    script.add(Statement::Let(1, Expr::Plus(Term::Variable(1), Term::Number(1))))?;
    script.add(Statement::End)?;
    Ok(script.written())
}

// Stage 2 takes three times, and writes the second value where the third take finds the end mark.
fn taking_thrice(alloc: Global) -> Result<Script, AllocError> {
    let mut script = Writing::new(alloc);
    script.add(Statement::Take(1, 1))?;
    script.add(Statement::Take(2, 1))?;
    script.add(Statement::Take(3, 1))?;
    script.add(Statement::When(Compare::Equal(value(0), number(1))))?;
    script.add(Statement::Write(R, value(2)))?;
    script.add(Statement::End)?;
    Ok(script.written())
}

// Whether the stages that pass on run their scripts.
fn piped_runs(alloc: Global, h: &History) -> Result<(bool, bool), AllocError> {
    let ends = one_pipe(alloc)?;
    let bodies = bodies(alloc, putting_twice(alloc)?, taking_thrice(alloc)?)?;
    both_run(alloc, &file(alloc, bodies, ends), h)
}

// Both run up to their exits, and the value is written that was taken second.
fn passed_on(alloc: Global, written: u64) -> Result<History, AllocError> {
    let mut telling = Telling::new(alloc);
    telling.give(1, Token::Chunk(1, 1))?;
    telling.get(2, Token::Chunk(1, 1))?;
    telling.give(1, Token::Chunk(1, 2))?;
    telling.over(1, How::Exited)?;
    telling.get(2, Token::Chunk(1, 2))?;
    telling.give(1, Token::Chunk(1, 3))?;
    telling.get(2, Token::Chunk(1, 3))?;
    telling.call(1, 2, Op::Write(R, written), &[])?;
    telling.give_exit(1)?;
    telling.over(2, How::Exited)?;
    telling.give_exit(2)?;
    Ok(telling.told())
}

// Stage 1 is killed, and gives these many of the end mark and its exit.
fn killed(alloc: Global, marked: bool, given: bool) -> Result<History, AllocError> {
    let mut telling = Telling::new(alloc);
    telling.give(1, Token::Chunk(1, 1))?;
    telling.over(1, How::Killed)?;
    if marked {
        telling.give(1, Token::Chunk(1, 2))?;
    }
    if given {
        telling.give_exit(1)?;
    }
    Ok(telling.told())
}

// Stage 1 reads a register into a variable, spawns stage 2, waits for it, and writes what it read and
// the status of the wait.
fn spawning(alloc: Global) -> Result<Script, AllocError> {
    let mut script = Writing::new(alloc);
    script.add(Statement::Read(1, Q))?;
    script.spawn(2)?;
    script.wait(2)?;
    script.add(Statement::Write(R, Expr::Plus(Term::Variable(1), Term::Variable(0))))?;
    Ok(script.written())
}

// Stage 2 writes a register.
fn second_writes(alloc: Global) -> Result<Script, AllocError> {
    let mut script = Writing::new(alloc);
    script.add(Statement::Write(Q, number(1)))?;
    script.add(Statement::Fence)?;
    Ok(script.written())
}

// Whether the stages of which one spawns the other run their scripts.
fn spawned_runs(alloc: Global, h: &History) -> Result<(bool, bool), AllocError> {
    let bodies = bodies(alloc, spawning(alloc)?, second_writes(alloc)?)?;
    both_run(alloc, &file(alloc, bodies, Seq::new(alloc)), h)
}

// Stage 1 reads 5 and spawns stage 2, which writes and is over.
fn until_over(alloc: Global, how: How) -> Result<Telling, AllocError> {
    let five = Shown {
        key: Q,
        value: 5,
        writer: 0,
    };
    let mut telling = Telling::new(alloc);
    telling.call(1, 1, Op::Read(Q), &[five])?;
    spawn_second(&mut telling)?;
    telling.call(2, 2, Op::Write(Q, 1), &[])?;
    telling.over(2, how)?;
    Ok(telling)
}

// Stage 1 waits for the exit of stage 2, and then writes this.
fn waited(alloc: Global, how: How, written: u64) -> Result<History, AllocError> {
    let mut telling = until_over(alloc, how)?;
    telling.give_exit(2)?;
    wait_for_second(&mut telling)?;
    telling.call(3, 1, Op::Write(R, written), &[])?;
    telling.over(1, How::Exited)?;
    telling.give_exit(1)?;
    Ok(telling.told())
}

// Stage 2 dies and gives no exit, and stage 1 writes this.
fn waited_in_vain(alloc: Global, written: u64) -> Result<History, AllocError> {
    let mut telling = until_over(alloc, How::Unavailable)?;
    telling.call(3, 1, Op::Write(R, written), &[])?;
    Ok(telling.told())
}

// Whether both run their scripts where they pass on, and this is written.
fn passing_runs(alloc: Global, written: u64) -> Result<(bool, bool), AllocError> {
    let h = passed_on(alloc, written)?;
    piped_runs(alloc, &h)
}

// Whether both do where stage 1 is killed, and gives these of its end mark and its exit.
fn killed_runs(alloc: Global, marked: bool, given: bool) -> Result<(bool, bool), AllocError> {
    let h = killed(alloc, marked, given)?;
    piped_runs(alloc, &h)
}

// Whether both do where stage 2 is over so, and stage 1 waits for its exit and then writes this.
fn waiting_runs(alloc: Global, how: How, written: u64) -> Result<(bool, bool), AllocError> {
    let h = waited(alloc, how, written)?;
    spawned_runs(alloc, &h)
}

// Whether both do where stage 2 dies without an exit, and stage 1 writes this.
fn vain_runs(alloc: Global, written: u64) -> Result<(bool, bool), AllocError> {
    let h = waited_in_vain(alloc, written)?;
    spawned_runs(alloc, &h)
}

#[test]
fn pipes(rt: HostRuntime) -> Result<(), Fail> {
    let alloc = rt.alloc();
    let rows = [
        ("passed on", passing_runs(alloc, 8)?, (true, true)),
        ("another value", passing_runs(alloc, 7)?, (true, false)),
        ("all", killed_runs(alloc, true, true)?, (true, true)),
        ("nothing", killed_runs(alloc, false, false)?, (true, true)),
        ("half", killed_runs(alloc, true, false)?, (false, true)),
    ];
    for (name, runs, wanted) in rows {
        assert_eq!(rt; runs, wanted, "{name}");
    }
    Ok(())
}

#[test]
fn spawns(rt: HostRuntime) -> Result<(), Fail> {
    let alloc = rt.alloc();
    let rows = [
        ("exited", waiting_runs(alloc, How::Exited, 5)?, (true, true)),
        ("killed", waiting_runs(alloc, How::Killed, 6)?, (true, true)),
        (
            "status",
            waiting_runs(alloc, How::Killed, 5)?,
            (false, true),
        ),
        ("in vain", vain_runs(alloc, 7)?, (true, true)),
        ("not in vain", vain_runs(alloc, 6)?, (false, true)),
    ];
    for (name, runs, wanted) in rows {
        assert_eq!(rt; runs, wanted, "{name}");
    }
    Ok(())
}
