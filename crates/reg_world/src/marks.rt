//! When a majority first held which stamp of one register.

ghost use Rattle.std.specs.Prelude.{◌≡◌, ◌+◌, ◌-◌, ◌*◌, ◌^◌, ◌<◌, ◌≤◌, [], ◌∷◌, ◌++◌, ◌||◌, true, false, length, OnOk};
ghost use Rattle.rss_names.specs.Ascending.{Finds};
ghost use Rattle.rss_machine.specs.Marks.{first_mark, is_noted as is_noted_in};
ghost use Rattle.reg_world.specs.Rows.{pairs_of, count_below, with_mark};

use carstamps::Carstamp;
use rss_machine::Mark;
use rss_names::{Steps, Times1, last_at_most};
use std::alloc::{AllocError, Global};
use std::marker::{Brand, Model};
use std::sync::ledger::{Blank, Ledger};

/// The marks of one register, each of a greater stamp than the one before it. Contracts see them,
/// and whether there is room for one more.
#[derive(Drop)]
pub struct Marks {
    marks: Vec<Mark>,
}

impl Model for Marks {
    ghost use Rattle.std.specs.Prelude.{◌≡◌, true, nat_lt, vec_len, vec_capacity};
    ghost use Rattle.carstamps.specs.Stamp.{opening_stamp};
    ghost use Rattle.reg_world.specs.Rows.{MarksView, rise_from};

    ghost Value = { MarksView };

    ghost view = { λ m. record { marks = m.marks.items; room = nat_lt (vec_len m.marks) (vec_capacity m.marks) } };

    ghost invariant = { λ m. rise_from opening_stamp m.marks.items ≡ true };
}

impl Times1 for Marks {
    ghost use Rattle.reg_world.specs.Rows.{pairs_of};

    ghost pairs = { λ m. pairs_of m.marks };

    fn len(&self) -> usize {
        self.marks.len()
    }

    fn get<L: Ledger>(&self, i: usize, steps: &mut Steps<L>) -> (u64, u32) {
        steps.tick();
        let stamp = self.marks[i].stamp;
        (stamp.number, stamp.call)
    }
}

impl Marks {
    /// No marks.
    pub fn new(alloc: Global) -> Marks
        ensures { result.marks ≡ [] }
    {
        Marks {
            marks: Vec::new(alloc),
        }
    }

    /// Makes room for one more mark. An `Err` is want of memory.
    pub fn make_room(&mut self) -> Result<(), AllocError>
        ensures same { self.new.marks ≡ self.old.marks }
        ensures room { OnOk result (self.new.room ≡ true) }
    {
        self.marks.reserve(1)
    }

    /// The step of the first mark that says that a majority holds this stamp or a greater one. Found
    /// by halves.
    pub fn first(&self, stamp: Carstamp) -> Option<u32>
        ensures { result ≡ first_mark self.now.marks stamp }
    {
        match self.marks.get(self.count_below(stamp)) {
            Some(mark) => Some(mark.step),
            None => None,
        }
    }

    /// Whether a stamp needs no note: it is that of the opening value, or a mark says it.
    pub fn is_noted(&self, stamp: Carstamp) -> bool
        ensures { result ≡ is_noted_in self.now.marks stamp }
    {
        !stamp.is_above(Carstamp::ZERO) || self.first(stamp).is_some()
    }

    /// Notes that a majority holds a stamp, in a step, unless the stamp needs no note. Takes no
    /// memory.
    pub fn note(&mut self, stamp: Carstamp, step: u32)
        requires room { (self.old.room || is_noted_in self.old.marks stamp) ≡ true }
        ensures { self.new.marks ≡ with_mark self.old.marks stamp step }
    {
        if !self.is_noted(stamp) {
            self.marks.push(Mark { stamp, step }).unwrap();
        }
    }

    // How many marks stand below a stamp.
    fn count_below(&self, stamp: Carstamp) -> usize
        ensures { result ≡ count_below stamp self.now.marks }
    {
        match last_upto::<Brand>(self, stamp, Blank::new(1)) {
            Some(place) => self.count_upto(place, stamp),
            None => 0,
        }
    }

    // How many marks stand below a stamp, where the last one not above it stands at this place.
    fn count_upto(&self, place: usize, stamp: Carstamp) -> usize
        requires last { Finds (pairs_of self.now.marks) (stamp.number, stamp.call) (Some place) }
        ensures { result ≡ count_below stamp self.now.marks }
    {
        let mark = self.marks[place];
        if stamp.is_above(mark.stamp) {
            place + 1
        } else {
            place
        }
    }
}

// The place of the last mark whose stamp is not above a stamp, found by halves.
fn last_upto<L: Ledger>(marks: &Marks, stamp: Carstamp, blank: Blank) -> Option<usize>
    requires name { blank.name ≡ L.name }
    requires parts { blank.parts ≡ L.parts }
    requires shared { 0 < L.parts }
    ensures { Finds (pairs_of marks.now.marks) (stamp.number, stamp.call) result }
{
    let mut steps = Steps::<L>::start(blank);
    search(marks, stamp, &mut steps)
}

// The same, with a bound on the steps: no more than twice the length and one more has binary digits.
fn search<L: Ledger>(marks: &Marks, stamp: Carstamp, steps: &mut Steps<L>) -> Option<usize>
    ensures found { Finds (pairs_of marks.now.marks) (stamp.number, stamp.call) result }
    ensures steps { 2 ^ (steps.new - steps.old) ≤ 2 * length marks.now.marks + 1 }
{
    if marks.marks.is_empty() {
        return None;
    }
    last_at_most(marks, (stamp.number, stamp.call), steps)
}
