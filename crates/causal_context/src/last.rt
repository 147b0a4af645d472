//! The services that a stage used last.

ghost use Rattle.std.specs.Prelude.{◌≡◌, ◌<◌, IfSome};
ghost use Rattle.causal_context.specs.Services.{IsService, AreServices, has_service, services_joined, place_from, place_of};
ghost use Rattle.causal_context.specs.Marks.{marked_from};
ghost use Rattle.causal_context.specs.LastView.{nothing_last, last_alone, outside_alone, last_joined, last_fenced};

use rss_names::{MOST_OF_A_KIND, ServiceId};
use std::marker::Model;

/// The services that were used last, and whether anything outside them was. Contracts see the
/// services as a list in their order, without repeats. It takes no memory.
#[derive(Clone, Copy)]
#[tactic(auto, using(crate::specs::Marks::marks_again))]
pub struct Last {
    marks: [bool; 16],
    outside: bool,
}

impl Model for Last {
    ghost use Rattle.std.specs.Prelude.{◌≡◌, length};
    ghost use Rattle.causal_context.specs.LastView.{LastView};
    ghost use Rattle.causal_context.specs.Marks.{marked_from, marks_from, marks_again};

    ghost Value = { LastView };

    ghost view = { λ l. record { services = marked_from 0 l.marks; outside = l.outside } };

    ghost invariant = { λ l. length l.marks ≡ 16 };

    ghost inverse = { λ v. record { marks = marks_from 0 16 v.services; outside = v.outside } };

    ghost inverse_ok = { λ l h i. record { marks = marks_again l.marks h i; outside = l.outside } };
}

/// The place of a number from 1 to 8 in its kind, whose first place is given.
fn place_in(first: usize, number: u8) -> Option<usize>
    requires { first < 9 }
    ensures same { result ≡ place_from first number }
    ensures within { IfSome result (λ place. place < 16) }
{
    if number == 0 || number > MOST_OF_A_KIND {
        return None;
    }
    Some(first + (number as usize - 1))
}

/// The place of a service in the order of services; none where its number is not from 1 to 8.
fn place(id: ServiceId) -> Option<usize>
    ensures same { result ≡ place_of id }
    ensures within { IfSome result (λ place. place < 16) }
{
    match id {
        ServiceId::Txn(number) => place_in(0, number),
        ServiceId::Reg(number) => place_in(8, number),
    }
}

/// Sets each mark that the others have.
fn mark_all(marks: &mut [bool; 16], others: &[bool; 16])
    ensures { marked_from 0 marks.new ≡ services_joined (marked_from 0 marks.old) (marked_from 0 others.now) }
{
    for place in 0..16 {
        if others[place] {
            marks[place] = true;
        }
    }
}

impl Last {
    /// Nothing was used yet.
    #[tactic(auto, unfolding(crate::specs::Marks::marked_from))]
    pub fn empty() -> Last
        ensures { result ≡ nothing_last }
    {
        Last {
            marks: [false; 16],
            outside: false,
        }
    }

    /// This service alone was used last.
    #[tactic(auto, using(crate::proofs::Changed::changes))]
    pub fn alone(id: ServiceId) -> Last
        requires service { IsService id }
        ensures { result ≡ last_alone id }
    {
        let mut marks = [false; 16];
        if let Some(place) = place(id) {
            marks[place] = true;
        }
        Last {
            marks,
            outside: false,
        }
    }

    /// Something outside the services alone was used last.
    #[tactic(auto, unfolding(crate::specs::Marks::marked_from))]
    pub fn outside_alone() -> Last
        ensures { result ≡ outside_alone }
    {
        Last {
            marks: [false; 16],
            outside: true,
        }
    }

    /// Whether this service was used last. The services are in their order, without repeats.
    #[tactic(auto, using(crate::proofs::Marked::marks))]
    pub fn has(&self, id: ServiceId) -> bool
        ensures has { result ≡ has_service self.now.services id }
        ensures services { AreServices self.now.services }
    {
        match place(id) {
            Some(place) => self.marks[place],
            None => false,
        }
    }

    /// Whether anything outside the services was used last.
    pub fn outside(&self) -> bool
        ensures { result ≡ self.now.outside }
    {
        self.outside
    }

    /// What one of the two used last.
    pub fn join(&mut self, other: &Last)
        ensures { self.new ≡ last_joined self.old other.now }
    {
        mark_all(&mut self.marks, &other.marks);
        self.outside = self.outside || other.outside;
    }

    /// This service was fenced: it is not used last any more, and something outside is.
    #[tactic(auto, using(crate::proofs::Changed::changes))]
    pub fn fence(&mut self, id: ServiceId)
        ensures { self.new ≡ last_fenced id self.old }
    {
        if let Some(place) = place(id) {
            self.marks[place] = false;
        }
        self.outside = true;
    }
}
