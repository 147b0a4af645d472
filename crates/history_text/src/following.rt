//! What may stand behind which entries.

ghost use Rattle.std.specs.Prelude.{◌≡◌};
ghost use Rattle.rss_model.specs.Operation.{reads_of};
ghost use Rattle.history_index.specs.Following.{term_within, formula_within, guard_within, writes_within, positions_within, may_follow, shows as shows_keys};

use crate::reading::Reading;
use pipeline_lang::{Compare, Expr, Term};
use rss_model::{Entry, Formula, Guard, Op, Shown};
use rss_names::{Key, is_same_key};

/// Whether a term names none but the first so many positions.
fn is_term_within(reads: usize, term: &Term<u8>) -> bool
    ensures { result ≡ term_within reads term.now }
{
    match term {
        Term::Number(_) => true,
        Term::Variable(position) => (*position as usize) < reads,
    }
}

/// Whether a formula does.
fn is_formula_within(reads: usize, formula: &Formula) -> bool
    ensures { result ≡ formula_within reads formula.now }
{
    match formula {
        Expr::One(a) => is_term_within(reads, a),
        Expr::Plus(a, b) => is_term_within(reads, a) && is_term_within(reads, b),
        Expr::Minus(a, b) => is_term_within(reads, a) && is_term_within(reads, b),
    }
}

/// Whether a guard does.
fn is_guard_within(reads: usize, guard: &Option<Guard>) -> bool
    ensures { result ≡ guard_within reads guard.now }
{
    match guard {
        Some(Compare::Equal(a, b)) => is_formula_within(reads, a) && is_formula_within(reads, b),
        Some(Compare::Less(a, b)) => is_formula_within(reads, a) && is_formula_within(reads, b),
        None => true,
    }
}

/// Whether the formulas of writes do.
fn are_writes_within(reads: usize, writes: &[(Key, Formula)]) -> bool
    ensures { result ≡ writes_within reads writes.now }
{
    for write in writes {
        if !is_formula_within(reads, &write.1) {
            return false;
        }
    }
    true
}

/// Whether each position that an operation names is one of its own reads.
fn is_within(op: &Op) -> bool
    ensures { result ≡ positions_within op.now }
{
    match op {
        Op::Read(_) => true,
        Op::Write(_, _) => true,
        Op::Snap(_) => true,
        Op::Txn(keys, guard, writes) => {
            is_guard_within(keys.len(), guard) && are_writes_within(keys.len(), writes.as_slice())
        }
    }
}

/// Whether a reply shows these keys, in this order.
fn shows(reply: &[Shown], keys: &[Key]) -> bool
    ensures { result ≡ shows_keys reply.now keys.now }
{
    let mut left = reply;
    for key in keys {
        match left.split_first() {
            Some((shown, behind)) => {
                if !is_same_key(shown.key, *key) {
                    return false;
                }
                left = behind;
            }
            None => return false,
        }
    }
    left.is_empty()
}

/// Whether a reply shows the keys that an operation reads.
fn shows_reads_of(reply: &[Shown], op: &Op) -> bool
    ensures { result ≡ shows_keys reply.now (reads_of op.now) }
{
    match op {
        Op::Read(key) => shows(reply, &[*key]),
        Op::Write(_, _) => shows(reply, &[]),
        Op::Snap(keys) => shows(reply, keys.as_slice()),
        Op::Txn(keys, _, _) => shows(reply, keys.as_slice()),
    }
}

/// Whether an entry may stand behind these.
pub fn may_stand(above: &Reading, entry: &Entry) -> bool
    ensures { result ≡ may_follow above.now entry.now }
{
    match entry {
        Entry::Begin(call, _, op) => !above.has_begun(*call) && is_within(op),
        Entry::End(call, reply) => match above.open_op(*call) {
            Some(op) => shows_reads_of(reply.as_slice(), op),
            None => false,
        },
        Entry::Give(_, _) => true,
        Entry::Get(_, token) => above.gave(*token),
        Entry::Over(_, _) => true,
    }
}
