//! The least call that does not stand behind all that real time puts before it.

ghost use Rattle.std.specs.Prelude.{◌≡◌, max, length, IfOk, OnOk, if◌then◌else◌};
ghost use Rattle.rss_names.specs.declared.service.Key.{Key};
ghost use Rattle.rss_names.specs.Services.{same_key};
ghost use Rattle.rss_model.specs.Operation.{reads_of};
ghost use Rattle.history_index.specs.Kept.{Indexes};
ghost use Rattle.rss_check.specs.Places.{kept};
ghost use Rattle.rss_check.specs.Table.{number_of_key};
ghost use Rattle.rss_check.specs.Bad.{IsLeastBad, IsUntimely, latest_after, ended_latest, with_ended, writes_key, time_bound, least_late};
ghost use Rattle.rss_check.specs.Passes.{kept_of_key, raised_by, greatest_by, latest_of};

use crate::calls::{is_mutation, op_of};
use crate::causal::lesser;
use crate::places::{Places, place_of};
use crate::table::{KeyNumber, key_number};
use history_index::HistoryIndex;
use indexmap::IndexMap;
use rss_model::{Entry, Formula, Op};
use rss_names::{CallId, Key};
use std::alloc::{AllocError, Global};

/// The greatest place of an ended mutation, and of one that writes a key; keys that are not there
/// have none.
pub struct KeyTops {
    pub any: usize,
    pub keys: IndexMap<KeyNumber, usize>,
}

// Written out, so that who lets tops go sees one call and none of their parts.
impl Drop for KeyTops {
    fn drop(self) {
        let KeyTops {
            any: _any,
            keys: _keys,
        } = self;
    }
}

/// The greatest place for a key, 0 where there is none.
fn key_top(keys: &IndexMap<KeyNumber, usize>, key: Key) -> usize
    ensures { result ≡ kept_of_key keys.now (number_of_key key) }
{
    match keys.get(&key_number(key)) {
        Some(top) => *top,
        None => 0,
    }
}

/// A place, too, is one for a key.
fn raise_key(
    keys: &mut IndexMap<KeyNumber, usize>,
    key: Key,
    place: usize,
) -> Result<(), AllocError>
    ensures { OnOk result ((other : Key) →
        kept_of_key keys.new (number_of_key other) ≡
        max (kept_of_key keys.old (number_of_key other)) (if same_key other key then place else 0)) }
{
    let top = key_top(keys, key).max(place);
    match keys.insert(key_number(key), top) {
        Ok(_) => Ok(()),
        Err(_) => Err(AllocError),
    }
}

/// A place, too, is one for the keys of these writes.
fn raise_all(
    keys: &mut IndexMap<KeyNumber, usize>,
    writes: &[(Key, Formula)],
    place: usize,
) -> Result<(), AllocError>
    ensures { OnOk result ((other : Key) →
        kept_of_key keys.new (number_of_key other) ≡
        raised_by (kept_of_key keys.old (number_of_key other)) other writes.now place) }
{
    for write in writes {
        raise_key(keys, write.0, place)?;
    }
    Ok(())
}

/// A place, too, is one for the keys that an operation writes.
#[tactic(auto, using(crate::proofs::Steps::raised_is))]
fn raise_written(
    keys: &mut IndexMap<KeyNumber, usize>,
    op: &Op,
    place: usize,
) -> Result<(), AllocError>
    ensures { OnOk result ((other : Key) →
        kept_of_key keys.new (number_of_key other) ≡
        max (kept_of_key keys.old (number_of_key other)) (if writes_key op.now other then place else 0)) }
{
    match op {
        Op::Write(key, _) => raise_key(keys, *key, place),
        Op::Txn(_, _, writes) => raise_all(keys, writes.as_slice(), place),
        Op::Read(_) => Ok(()),
        Op::Snap(_) => Ok(()),
    }
}

/// The greatest place for one of some keys.
fn greatest(tops: &KeyTops, keys: &[Key]) -> usize
    ensures { result ≡ greatest_by tops.now.keys keys.now }
{
    let mut greatest = 0;
    for key in keys {
        greatest = key_top(&tops.keys, *key).max(greatest);
    }
    greatest
}

/// The greatest place for one of the keys that an operation reads.
fn greatest_read(tops: &KeyTops, op: &Op) -> usize
    ensures { result ≡ greatest_by tops.now.keys (reads_of op.now) }
{
    match op {
        Op::Read(key) => key_top(&tops.keys, *key),
        Op::Write(_, _) => 0,
        Op::Snap(keys) => greatest(tops, keys.as_slice()),
        Op::Txn(keys, _, _) => greatest(tops, keys.as_slice()),
    }
}

impl KeyTops {
    /// No mutation has ended.
    fn new(alloc: Global) -> KeyTops
        ensures any { result.any ≡ 0 }
        ensures keys { (key : Key) → kept_of_key result.keys (number_of_key key) ≡ 0 }
    {
        KeyTops {
            any: 0,
            keys: IndexMap::new(alloc),
        }
    }

    /// A mutation has ended.
    fn note_mutation(&mut self, op: &Op, place: usize) -> Result<(), AllocError>
        ensures any { OnOk result (self.new.any ≡ (with_ended (latest_of self.old) op.now place).any) }
        ensures keys { OnOk result ((key : Key) →
            kept_of_key self.new.keys (number_of_key key) ≡ (with_ended (latest_of self.old) op.now place).written key) }
    {
        raise_written(&mut self.keys, op, place)?;
        self.any = self.any.max(place);
        Ok(())
    }

    /// Goes on by the end of a call.
    fn note_end(
        &mut self,
        h: &[Entry],
        index: &HistoryIndex,
        places: &Places,
        call: CallId,
    ) -> Result<(), AllocError>
        requires { Indexes h.now index.now }
        ensures any { OnOk result (self.new.any ≡ (ended_latest h.now (kept places.now) (latest_of self.old) call).any) }
        ensures keys { OnOk result ((key : Key) →
            kept_of_key self.new.keys (number_of_key key) ≡ (ended_latest h.now (kept places.now) (latest_of self.old) call).written key) }
    {
        if !is_mutation(h, index, call) {
            return Ok(());
        }
        match op_of(h, index, call) {
            Some(op) => self.note_mutation(op, place_of(places, call)),
            None => Ok(()),
        }
    }

    /// Goes on by an entry.
    fn note(
        &mut self,
        h: &[Entry],
        index: &HistoryIndex,
        places: &Places,
        entry: &Entry,
    ) -> Result<(), AllocError>
        requires { Indexes h.now index.now }
        ensures any { OnOk result (self.new.any ≡ (latest_after h.now (kept places.now) (latest_of self.old) entry.now).any) }
        ensures keys { OnOk result ((key : Key) →
            kept_of_key self.new.keys (number_of_key key) ≡ (latest_after h.now (kept places.now) (latest_of self.old) entry.now).written key) }
    {
        match entry {
            Entry::End(call, _) => self.note_end(h, index, places, *call),
            Entry::Begin(_, _, _) => Ok(()),
            Entry::Give(_, _) => Ok(()),
            Entry::Get(_, _) => Ok(()),
            Entry::Over(_, _) => Ok(()),
        }
    }
}

/// Behind which place a call is to stand.
fn bound_of(h: &[Entry], index: &HistoryIndex, tops: &KeyTops, call: CallId) -> usize
    requires { Indexes h.now index.now }
    ensures { result ≡ time_bound h.now (latest_of tops.now) call }
{
    if is_mutation(h, index, call) {
        return tops.any;
    }
    match op_of(h, index, call) {
        Some(op) => greatest_read(tops, op),
        None => 0,
    }
}

/// The least so far, and the call that an entry begins, if it begins one that stands before a call
/// that it must follow in real time.
fn with_late(
    least: Option<CallId>,
    h: &[Entry],
    index: &HistoryIndex,
    tops: &KeyTops,
    places: &Places,
    entry: &Entry,
) -> Option<CallId>
    requires { Indexes h.now index.now }
    ensures { result ≡ least_late least h.now (latest_of tops.now) (kept places.now) entry.now }
{
    match entry {
        Entry::Begin(call, _, _) => {
            let place = place_of(places, *call);
            if place > 0 && place <= bound_of(h, index, tops, *call) {
                lesser(least, *call)
            } else {
                least
            }
        }
        Entry::End(_, _) => least,
        Entry::Give(_, _) => least,
        Entry::Get(_, _) => least,
        Entry::Over(_, _) => least,
    }
}

/// The least call that stands before one that it must follow in real time. None where there is none.
pub fn least_untimely(
    alloc: Global,
    h: &[Entry],
    index: &HistoryIndex,
    places: &Places,
) -> Result<Option<CallId>, AllocError>
    requires { Indexes h.now index.now }
    ensures { IfOk result (λ least. IsLeastBad (IsUntimely h.now (kept places.now)) (length h.now) least) }
{
    let mut tops = KeyTops::new(alloc);
    let mut least = None;
    for entry in h {
        least = with_late(least, h, index, &tops, places, entry);
        tops.note(h, index, places, entry)?;
    }
    Ok(least)
}
