//! How owners end, and what else is noted of them without a turn.

ghost use Rattle.std.specs.Prelude.{◌≡◌, true};
ghost use Rattle.world_parts.specs.Halves.{closes_in, closes_stub_in, put_owner};
ghost use Rattle.world_parts.specs.Parts.{owner_in};
ghost use Rattle.world_traffic.specs.View.{IsBegun};

use crate::traffic::Traffic;
use rss_machine::OwnerFate;

impl Traffic {
    /// An owner is closed in this step.
    #[tactic(auto, using(crate::proofs::Rows::rows))]
    pub fn close(&mut self, number: u32, fate: OwnerFate, step: u32)
        requires begun { IsBegun self.old.traffic number }
        ensures { self.new ≡ record self.old { traffic = closes_in step self.old.traffic number fate; each = self.new.each } }
    {
        let owner = &mut self.owners[(number - 1) as usize];
        owner.close(fate, step);
    }

    /// A stub is done and fenced in this step.
    #[tactic(auto, using(crate::proofs::Rows::rows))]
    pub fn close_stub(&mut self, number: u32, step: u32)
        requires begun { IsBegun self.old.traffic number }
        ensures { self.new ≡ record self.old { traffic = closes_stub_in step self.old.traffic number; each = self.new.each } }
    {
        let owner = &mut self.owners[(number - 1) as usize];
        owner.close_stub(step);
    }

    /// A replica has handled an owner's store.
    #[tactic(auto, using(crate::proofs::Rows::rows))]
    pub fn note_stored(&mut self, number: u32)
        requires begun { IsBegun self.old.traffic number }
        ensures { self.new ≡ record self.old { traffic = put_owner self.old.traffic number (record (owner_in self.old.traffic number) { stored = true }); each = self.new.each } }
    {
        let owner = &mut self.owners[(number - 1) as usize];
        owner.note_stored();
    }
}
