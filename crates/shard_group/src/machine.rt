//! A machine that is kept by a log.

ghost use Rattle.std.specs.Prelude.{◌≡◌, ◌∷◌, List, IsTrue, OnOk};
ghost use Rattle.group_tables.specs.OneShard.{Asked};

use rss_wire::{Reply, Request};
use std::alloc::AllocError;
use truetime::Interval;

/// What serves requests one after another: what it replies is fixed by what it was opened with and by
/// the requests that it has served, each with its reading.
pub trait Machine {
    ghost use Rattle.std.specs.Prelude.{◌≡◌, [], List, Bool};
    ghost use Rattle.group_tables.specs.OneShard.{Asked};
    ghost use Rattle.rss_names.specs.declared.service.Key.{Key};
    ghost use Rattle.rss_wire.specs.declared.messages.Request.{Request};
    ghost use Rattle.rss_wire.specs.declared.messages.Reply.{Reply};

    /// Which requests it can serve.
    ghost fits: { Self → Request → Bool };

    /// What it will reply to these, one after another.
    ghost answers: { Self → List Asked → List Reply };

    /// The keys that it was opened with.
    ghost keys: { Self → List Key };

    /// What a machine of these keys replies to these, one after another, from its opening on.
    ghost replies_of: { List Key → List Asked → List Reply };

    /// Whether it has room for a request.
    ghost has_room: { Self → Request → Bool };

    /// Nothing is replied to nothing.
    ghost answers_nothing: { (s : Self) → answers s [] ≡ [] };

    /// Makes room for a request. Only the room changes, also where there is none.
    fn make_room(&mut self, r: &Request) -> Result<(), AllocError>
        requires fits { IsTrue (fits self.old r.now) }
        ensures room { OnOk result (IsTrue (has_room self.new r.now)) }
        ensures same { answers self.new ≡ answers self.old }
        ensures keys { keys self.new ≡ keys self.old }
        ensures fits { fits self.new ≡ fits self.old };

    /// Serves a request. Takes no memory.
    fn apply(&mut self, r: &Request, at: Interval) -> Reply
        requires fits { IsTrue (fits self.old r.now) }
        requires room { IsTrue (has_room self.old r.now) }
        ensures next { (rest : List Asked) → answers self.old (record { request = r.now; at = at } ∷ rest) ≡ result ∷ answers self.new rest }
        ensures keys { keys self.new ≡ keys self.old }
        ensures fits { fits self.new ≡ fits self.old };

    /// Puts the opening state back. Takes no memory.
    fn reopen(&mut self)
        ensures opened { answers self.new ≡ replies_of (keys self.old) }
        ensures keys { keys self.new ≡ keys self.old }
        ensures fits { fits self.new ≡ fits self.old };
}
