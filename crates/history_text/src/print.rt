//! The printed text of a history.

ghost use Rattle.std.specs.Prelude.{◌≡◌, ◌++◌, [], codes, get_or, IfOk, OnOk};
ghost use Rattle.std.specs.Fmt.{decimal};
ghost use Rattle.pipeline_lang.specs.Config.{stage_name, pipe_name, key_name};
ghost use Rattle.history_text.specs.Spelling.{term_text, formula_text, guard_text, when_text, more_text, list_text, write_text, op_text, shown_text, token_text, how_text, entry_text, entries_text, places_text, history_text};

use pipeline_lang::{Compare, Config, Expr, NameTable, Term};
use rss_model::{Candidate, Entry, Formula, Guard, History, How, Op, Shown, Token};
use rss_names::{CallId, Key, ServiceId, StageId, put_number};
use std::alloc::{AllocError, Global};

/// Adds the name at a position of a table, and nothing where there is none.
fn put_name(text: &mut Vec<u8>, names: &NameTable, position: u16) -> Result<(), AllocError>
    ensures { OnOk result (text.new.items ≡ text.old.items ++ get_or names.now position []) }
{
    match names.name(position) {
        Some(name) => text.extend_from_slice(name.bytes()),
        None => Ok(()),
    }
}

/// Adds the name of a key or register.
fn put_key(text: &mut Vec<u8>, config: &Config, key: Key) -> Result<(), AllocError>
    ensures { OnOk result (text.new.items ≡ text.old.items ++ key_name config.now key) }
{
    match key.service {
        ServiceId::Txn(_) => put_name(text, &config.keys, key.index),
        ServiceId::Reg(_) => put_name(text, &config.registers, key.index),
    }
}

/// Adds the name of a stage.
fn put_stage(text: &mut Vec<u8>, config: &Config, stage: StageId) -> Result<(), AllocError>
    ensures { OnOk result (text.new.items ≡ text.old.items ++ stage_name config.now stage) }
{
    put_name(text, &config.stages, stage.number() as u16 - 1)
}

/// Adds the name of a pipe.
fn put_pipe(text: &mut Vec<u8>, config: &Config, pipe: u8) -> Result<(), AllocError>
    ensures { OnOk result (text.new.items ≡ text.old.items ++ pipe_name config.now pipe) }
{
    put_name(text, &config.pipes, (pipe as u16).saturating_sub(1))
}

/// Adds a term of a formula.
#[tactic(auto, unfolding(crate::specs::Spelling::term_text))]
fn put_term(alloc: Global, text: &mut Vec<u8>, term: Term<u8>) -> Result<(), AllocError>
    ensures { OnOk result (text.new.items ≡ text.old.items ++ term_text term) }
{
    match term {
        Term::Number(number) => put_number(alloc, text, number),
        Term::Variable(position) => {
            text.extend_from_slice(b"#")?;
            put_number(alloc, text, position as u64 + 1)
        }
    }
}

/// Adds two terms and what stands between them.
fn put_terms(
    alloc: Global,
    text: &mut Vec<u8>,
    first: Term<u8>,
    between: &[u8],
    second: Term<u8>,
) -> Result<(), AllocError>
    ensures { OnOk result (text.new.items ≡ text.old.items ++ (term_text first ++ between.now ++ term_text second)) }
{
    put_term(alloc, text, first)?;
    text.extend_from_slice(between)?;
    put_term(alloc, text, second)
}

/// Adds a formula.
#[tactic(auto, unfolding(crate::specs::Spelling::formula_text))]
fn put_formula(alloc: Global, text: &mut Vec<u8>, formula: &Formula) -> Result<(), AllocError>
    ensures { OnOk result (text.new.items ≡ text.old.items ++ formula_text formula.now) }
{
    match formula {
        Expr::One(first) => put_term(alloc, text, *first),
        Expr::Plus(first, second) => put_terms(alloc, text, *first, b" + ", *second),
        Expr::Minus(first, second) => put_terms(alloc, text, *first, b" - ", *second),
    }
}

/// Adds two formulas and what stands between them.
fn put_formulas(
    alloc: Global,
    text: &mut Vec<u8>,
    first: &Formula,
    between: &[u8],
    second: &Formula,
) -> Result<(), AllocError>
    ensures { OnOk result (text.new.items ≡ text.old.items ++ (formula_text first.now ++ between.now ++ formula_text second.now)) }
{
    put_formula(alloc, text, first)?;
    text.extend_from_slice(between)?;
    put_formula(alloc, text, second)
}

/// Adds a guard.
#[tactic(auto, unfolding(crate::specs::Spelling::guard_text))]
fn put_guard(alloc: Global, text: &mut Vec<u8>, guard: &Guard) -> Result<(), AllocError>
    ensures { OnOk result (text.new.items ≡ text.old.items ++ guard_text guard.now) }
{
    match guard {
        Compare::Equal(left, right) => put_formulas(alloc, text, left, b" = ", right),
        Compare::Less(left, right) => put_formulas(alloc, text, left, b" < ", right),
    }
}

/// Adds the guard of a transaction, if it has one.
#[tactic(auto, unfolding(crate::specs::Spelling::when_text))]
fn put_when(alloc: Global, text: &mut Vec<u8>, guard: &Option<Guard>) -> Result<(), AllocError>
    ensures { OnOk result (text.new.items ≡ text.old.items ++ when_text guard.now) }
{
    match guard {
        Some(guard) => {
            text.extend_from_slice(b" when ")?;
            put_guard(alloc, text, guard)
        }
        None => Ok(()),
    }
}

/// Adds a key that stands behind another.
fn put_next_key(text: &mut Vec<u8>, config: &Config, key: Key) -> Result<(), AllocError>
    ensures { OnOk result (text.new.items ≡ text.old.items ++ (codes ", " ++ key_name config.now key)) }
{
    text.extend_from_slice(b", ")?;
    put_key(text, config, key)
}

/// Adds the keys that stand behind the first one.
#[tactic(auto, unfolding(crate::specs::Spelling::more_text))]
fn put_more_keys(text: &mut Vec<u8>, config: &Config, keys: &[Key]) -> Result<(), AllocError>
    ensures { OnOk result (text.new.items ≡ text.old.items ++ more_text (key_name config.now) keys.now) }
{
    for key in keys {
        put_next_key(text, config, *key)?;
    }
    Ok(())
}

/// Adds keys, each behind a space, with `,` between.
#[tactic(auto, unfolding(crate::specs::Spelling::list_text))]
fn put_keys(text: &mut Vec<u8>, config: &Config, keys: &[Key]) -> Result<(), AllocError>
    ensures { OnOk result (text.new.items ≡ text.old.items ++ list_text (key_name config.now) keys.now) }
{
    match keys.split_first() {
        Some((first, more)) => {
            text.extend_from_slice(b" ")?;
            put_key(text, config, *first)?;
            put_more_keys(text, config, more)
        }
        None => Ok(()),
    }
}

/// Adds a write of a transaction.
#[tactic(auto, unfolding(crate::specs::Spelling::write_text))]
fn put_write(
    alloc: Global,
    text: &mut Vec<u8>,
    config: &Config,
    write: &(Key, Formula),
) -> Result<(), AllocError>
    ensures { OnOk result (text.new.items ≡ text.old.items ++ write_text config.now write.now) }
{
    put_key(text, config, write.0)?;
    text.extend_from_slice(b" = ")?;
    put_formula(alloc, text, &write.1)
}

/// Adds a write that stands behind another.
fn put_next_write(
    alloc: Global,
    text: &mut Vec<u8>,
    config: &Config,
    write: &(Key, Formula),
) -> Result<(), AllocError>
    ensures { OnOk result (text.new.items ≡ text.old.items ++ (codes ", " ++ write_text config.now write.now)) }
{
    text.extend_from_slice(b", ")?;
    put_write(alloc, text, config, write)
}

/// Adds the writes that stand behind the first one.
#[tactic(auto, unfolding(crate::specs::Spelling::more_text))]
fn put_more_writes(
    alloc: Global,
    text: &mut Vec<u8>,
    config: &Config,
    writes: &[(Key, Formula)],
) -> Result<(), AllocError>
    ensures { OnOk result (text.new.items ≡ text.old.items ++ more_text (write_text config.now) writes.now) }
{
    for write in writes {
        put_next_write(alloc, text, config, write)?;
    }
    Ok(())
}

/// Adds writes, each behind a space, with `,` between.
#[tactic(auto, unfolding(crate::specs::Spelling::list_text))]
fn put_writes(
    alloc: Global,
    text: &mut Vec<u8>,
    config: &Config,
    writes: &[(Key, Formula)],
) -> Result<(), AllocError>
    ensures { OnOk result (text.new.items ≡ text.old.items ++ list_text (write_text config.now) writes.now) }
{
    match writes.split_first() {
        Some((first, more)) => {
            text.extend_from_slice(b" ")?;
            put_write(alloc, text, config, first)?;
            put_more_writes(alloc, text, config, more)
        }
        None => Ok(()),
    }
}

/// Adds an operation.
#[tactic(auto, unfolding(crate::specs::Spelling::op_text))]
fn put_op(alloc: Global, text: &mut Vec<u8>, config: &Config, op: &Op) -> Result<(), AllocError>
    ensures { OnOk result (text.new.items ≡ text.old.items ++ op_text config.now op.now) }
{
    match op {
        Op::Read(key) => {
            text.extend_from_slice(b"read ")?;
            put_key(text, config, *key)
        }
        Op::Write(key, value) => {
            text.extend_from_slice(b"write ")?;
            put_key(text, config, *key)?;
            text.extend_from_slice(b" ")?;
            put_number(alloc, text, *value)
        }
        Op::Snap(keys) => {
            text.extend_from_slice(b"snap")?;
            put_keys(text, config, keys.as_slice())
        }
        Op::Txn(keys, guard, writes) => {
            text.extend_from_slice(b"txn")?;
            put_keys(text, config, keys.as_slice())?;
            put_when(alloc, text, guard)?;
            text.extend_from_slice(b" :")?;
            put_writes(alloc, text, config, writes.as_slice())
        }
    }
}

/// Adds what a call was shown of a key.
#[tactic(auto, unfolding(crate::specs::Spelling::shown_text))]
fn put_shown(
    alloc: Global,
    text: &mut Vec<u8>,
    config: &Config,
    shown: &Shown,
) -> Result<(), AllocError>
    ensures { OnOk result (text.new.items ≡ text.old.items ++ shown_text config.now shown.now) }
{
    put_key(text, config, shown.key)?;
    text.extend_from_slice(b" = ")?;
    put_number(alloc, text, shown.value)?;
    text.extend_from_slice(b" by ")?;
    put_number(alloc, text, shown.writer as u64)
}

/// Adds what a call was shown of a key, behind what it was shown of another.
fn put_next_shown(
    alloc: Global,
    text: &mut Vec<u8>,
    config: &Config,
    shown: &Shown,
) -> Result<(), AllocError>
    ensures { OnOk result (text.new.items ≡ text.old.items ++ (codes ", " ++ shown_text config.now shown.now)) }
{
    text.extend_from_slice(b", ")?;
    put_shown(alloc, text, config, shown)
}

/// Adds what a call was shown, behind the first key.
#[tactic(auto, unfolding(crate::specs::Spelling::more_text))]
fn put_more_shown(
    alloc: Global,
    text: &mut Vec<u8>,
    config: &Config,
    reply: &[Shown],
) -> Result<(), AllocError>
    ensures { OnOk result (text.new.items ≡ text.old.items ++ more_text (shown_text config.now) reply.now) }
{
    for shown in reply {
        put_next_shown(alloc, text, config, shown)?;
    }
    Ok(())
}

/// Adds a reply.
#[tactic(auto, unfolding(crate::specs::Spelling::list_text))]
fn put_reply(
    alloc: Global,
    text: &mut Vec<u8>,
    config: &Config,
    reply: &[Shown],
) -> Result<(), AllocError>
    ensures { OnOk result (text.new.items ≡ text.old.items ++ list_text (shown_text config.now) reply.now) }
{
    match reply.split_first() {
        Some((first, more)) => {
            text.extend_from_slice(b" ")?;
            put_shown(alloc, text, config, first)?;
            put_more_shown(alloc, text, config, more)
        }
        None => Ok(()),
    }
}

/// Adds a message.
#[tactic(auto, unfolding(crate::specs::Spelling::token_text))]
fn put_token(
    alloc: Global,
    text: &mut Vec<u8>,
    config: &Config,
    token: Token,
) -> Result<(), AllocError>
    ensures { OnOk result (text.new.items ≡ text.old.items ++ token_text config.now token) }
{
    match token {
        Token::Spawn(stage) => {
            text.extend_from_slice(b"spawn ")?;
            put_stage(text, config, stage)
        }
        Token::Chunk(pipe, number) => {
            text.extend_from_slice(b"chunk ")?;
            put_pipe(text, config, pipe)?;
            text.extend_from_slice(b" ")?;
            put_number(alloc, text, number as u64)
        }
        Token::Exit(stage) => {
            text.extend_from_slice(b"exit ")?;
            put_stage(text, config, stage)
        }
    }
}

/// Adds how a stage is over.
#[tactic(auto, unfolding(crate::specs::Spelling::how_text))]
fn put_how(text: &mut Vec<u8>, how: How) -> Result<(), AllocError>
    ensures { OnOk result (text.new.items ≡ text.old.items ++ how_text how) }
{
    match how {
        How::Exited => text.extend_from_slice(b"exited"),
        How::Killed => text.extend_from_slice(b"killed"),
        How::Unavailable => text.extend_from_slice(b"unavailable"),
    }
}

/// Adds a word, the name of a stage and a space.
fn put_staged(
    text: &mut Vec<u8>,
    config: &Config,
    word: &[u8],
    stage: StageId,
) -> Result<(), AllocError>
    ensures { OnOk result (text.new.items ≡ text.old.items ++ (word.now ++ stage_name config.now stage ++ codes " ")) }
{
    text.extend_from_slice(word)?;
    put_stage(text, config, stage)?;
    text.extend_from_slice(b" ")
}

/// Adds a word and the number of a call.
fn put_called(
    alloc: Global,
    text: &mut Vec<u8>,
    word: &[u8],
    call: CallId,
) -> Result<(), AllocError>
    ensures { OnOk result (text.new.items ≡ text.old.items ++ (word.now ++ decimal call)) }
{
    text.extend_from_slice(word)?;
    put_number(alloc, text, call.number() as u64)
}

/// Adds an entry, without its newline.
#[tactic(auto, unfolding(crate::specs::Spelling::entry_text))]
fn put_entry(
    alloc: Global,
    text: &mut Vec<u8>,
    config: &Config,
    entry: &Entry,
) -> Result<(), AllocError>
    ensures { OnOk result (text.new.items ≡ text.old.items ++ entry_text config.now entry.now) }
{
    match entry {
        Entry::Begin(call, stage, op) => {
            put_called(alloc, text, b"begin ", *call)?;
            put_staged(text, config, b" ", *stage)?;
            put_op(alloc, text, config, op)
        }
        Entry::End(call, reply) => {
            put_called(alloc, text, b"end ", *call)?;
            put_reply(alloc, text, config, reply.as_slice())
        }
        Entry::Give(stage, token) => {
            put_staged(text, config, b"give ", *stage)?;
            put_token(alloc, text, config, *token)
        }
        Entry::Get(stage, token) => {
            put_staged(text, config, b"get ", *stage)?;
            put_token(alloc, text, config, *token)
        }
        Entry::Over(stage, how) => {
            put_staged(text, config, b"over ", *stage)?;
            put_how(text, *how)
        }
    }
}

/// Adds the line of an entry.
fn put_entry_line(
    alloc: Global,
    text: &mut Vec<u8>,
    config: &Config,
    entry: &Entry,
) -> Result<(), AllocError>
    ensures { OnOk result (text.new.items ≡ text.old.items ++ (entry_text config.now entry.now ++ codes "\n")) }
{
    put_entry(alloc, text, config, entry)?;
    text.extend_from_slice(b"\n")
}

/// Adds the lines of a history.
#[tactic(auto, unfolding(crate::specs::Spelling::entries_text))]
fn put_entries(
    alloc: Global,
    text: &mut Vec<u8>,
    config: &Config,
    entries: &[Entry],
) -> Result<(), AllocError>
    ensures { OnOk result (text.new.items ≡ text.old.items ++ entries_text config.now entries.now) }
{
    for entry in entries {
        put_entry_line(alloc, text, config, entry)?;
    }
    Ok(())
}

/// Adds the line of a call's place.
fn put_place(alloc: Global, text: &mut Vec<u8>, call: CallId) -> Result<(), AllocError>
    ensures { OnOk result (text.new.items ≡ text.old.items ++ (codes "place " ++ decimal call ++ codes "\n")) }
{
    put_called(alloc, text, b"place ", call)?;
    text.extend_from_slice(b"\n")
}

/// Adds the lines of an order of calls.
#[tactic(auto, unfolding(crate::specs::Spelling::places_text))]
fn put_places(alloc: Global, text: &mut Vec<u8>, calls: &[CallId]) -> Result<(), AllocError>
    ensures { OnOk result (text.new.items ≡ text.old.items ++ places_text calls.now) }
{
    for call in calls {
        put_place(alloc, text, *call)?;
    }
    Ok(())
}

/// The text of a history, by the names of its file, and of an order of its calls: a line for each
/// entry, the line `%places`, and a line for each call of the order.
#[tactic(auto, unfolding(crate::specs::Spelling::history_text))]
pub fn print_history(
    alloc: Global,
    config: &Config,
    h: &History,
    c: &Candidate,
) -> Result<Vec<u8>, AllocError>
    ensures { IfOk result (λ text. text.items ≡ history_text config.now h.now c.now) }
{
    let mut text = Vec::new(alloc);
    put_entries(alloc, &mut text, config, h.as_slice())?;
    text.extend_from_slice(b"%places\n")?;
    put_places(alloc, &mut text, c.as_slice())?;
    Ok(text)
}
