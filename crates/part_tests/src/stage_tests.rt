//! A stage that goes through statements as they come, and a pipe.

use causal_context::Context;
use pipeline_lang::{Expr, Statement, Term};
use pipeline_stage::{Front, NumberedStatement, Pipe, Stage, op_of};
use rss_machine::Life;
use rss_model::{Op, Shown};
use rss_names::{Key, ServiceId, is_same_key};
use std::test::Fail;

const X: Key = Key {
    service: ServiceId::Reg(1),
    index: 0,
};

#[test]
fn a_write_takes_what_a_read_was_shown(rt: HostRuntime) -> Result<(), Fail> {
    let alloc = rt.alloc();
    let below_zero = Expr::Minus(Term::Number(0), Term::Variable(2));
    let sum = Expr::Plus(Term::Variable(1), Term::Variable(2));
    let script: [NumberedStatement; 3] = [
        Statement::Read(2, X),
        Statement::Let(1, below_zero),
        Statement::Write(X, sum),
    ];
    let shown = Shown {
        key: X,
        value: 3,
        writer: 1,
    };
    let mut stage = Stage::new(alloc, Life::Live)?;
    stage.begin(1);
    stage.end_call(&script, &[shown], Context::empty(alloc));
    assert!(rt; stage.owner().is_none());
    stage.step_local(&script);
    assert_eq!(rt; stage.value(&Expr::One(Term::Variable(1))), u64::MAX - 2);
    let call = op_of(alloc, &script[2], stage.variables())?;
    assert!(rt; matches!(&call, Some(Op::Write(key, 0)) if is_same_key(*key, X)));
    assert_eq!(rt; stage.position(), 2);
    Ok(())
}

#[test]
fn a_pipe_keeps_its_chunks_in_order_before_its_end(rt: HostRuntime) -> Result<(), Fail> {
    let alloc = rt.alloc();
    let mut pipe = Pipe::new(alloc)?;
    pipe.put(7, Context::empty(alloc));
    assert_eq!(rt; pipe.has_room(1), false);
    assert_eq!(rt; pipe.has_room(2), true);
    pipe.skip();
    pipe.put(8, Context::empty(alloc));
    pipe.close(Context::empty(alloc));
    assert!(rt; matches!(pipe.front(), Front::Chunk(1, 7)));
    pipe.take();
    assert!(rt; matches!(pipe.front(), Front::Chunk(3, 8)));
    pipe.take();
    assert!(rt; matches!(pipe.front(), Front::Fenced(4)));
    assert_eq!(rt; pipe.can_take(), true);
    Ok(())
}
