//! Statements of the script language, over names as written or over numbers.

use rss_names::{Key, Name, Seq, StageId};

/// A number, or the value of a variable.
#[derive(Clone, Copy)]
pub enum Term<V> {
    Number(u64),
    Variable(V),
}

/// A term, or the sum or difference of two terms modulo 2^64.
#[derive(Clone, Copy)]
pub enum Expr<V> {
    One(Term<V>),
    Plus(Term<V>, Term<V>),
    Minus(Term<V>, Term<V>),
}

/// A comparison of two expressions.
#[derive(Clone, Copy)]
pub enum Compare<V> {
    Equal(Expr<V>, Expr<V>),
    Less(Expr<V>, Expr<V>),
}

/// One statement, over variables `V`, keys and registers `K`, stages `S` and pipes `P`.
#[derive(Drop)]
pub enum Statement<V, K, S, P> {
    /// `let V = EXPR` sets a variable.
    Let(V, Expr<V>),
    /// `read V REG` reads a register.
    Read(V, K),
    /// `write REG EXPR` writes a register.
    Write(K, Expr<V>),
    /// `snap V KEY, ..` reads keys in a read-only transaction.
    Snap(Seq<(V, K)>),
    /// `txn V KEY, .. when COMPARE : KEY = EXPR, ..` is a read-write transaction, whose writes are
    /// made only where the guard holds of what it read.
    Txn(Seq<(V, K)>, Option<Compare<V>>, Seq<(K, Expr<V>)>),
    /// `spawn STAGE` starts a stage.
    Spawn(S),
    /// `wait STAGE` waits for the exit of a stage that this one spawned.
    Wait(S),
    /// `put PIPE EXPR` puts a chunk into a pipe.
    Put(P, Expr<V>),
    /// `take V PIPE` takes a pipe's first chunk.
    Take(V, P),
    /// `close PIPE` ends a pipe.
    Close(P),
    /// `fence` runs the fences of all services that the stage used last.
    Fence,
    /// `repeat N` runs its body N times.
    Repeat(u64),
    /// `when COMPARE` runs its body only where the comparison holds.
    When(Compare<V>),
    /// `end` ends the body of a `repeat` or a `when`.
    End,
    /// `exit` ends the stage; it also stands after the last statement.
    Exit,
}

/// A script with names as they are written.
pub type RawScript = Seq<Statement<Name, Name, Name, Name>>;

/// A script with numbers: variable 0 is `status`, the others are numbered from 1 in the order of
/// their first mention; pipes are numbered from 1 in file order.
pub type Script = Seq<Statement<u8, Key, StageId, u8>>;
