//! The laws of a replica on a disk.

ghost use Rattle.std.specs.Prelude.{◌≡◌, ℕ, List, length, take};
ghost use Rattle.rss_tables.specs.ReplicaRow.{accept_all, replica_after, replica_reply};
ghost use Rattle.rss_wire.specs.declared.messages.RegReply.{RegReply};
ghost use Rattle.rss_wire.specs.declared.messages.Request.{Request};
ghost use Rattle.replica_disk.specs.Disks.{IsImage, Loose};
ghost use Rattle.replica_disk.specs.Registers.{IsSettled, registers_of};
ghost use Rattle.replica_disk.specs.Accepts.{accepts_of};

/// Whatever front of a request a stop left accepted, the same request handled again leaves the
/// registers, and has the reply, of one that was handled once.
pub fn a_request_may_be_handled_again()
    ensures registers { (held : List RegReply) (r : Request) (n : ℕ) →
        replica_after (accept_all held (take n (accepts_of r))) r ≡ replica_after held r }
    ensures reply { (held : List RegReply) (r : Request) (n : ℕ) →
        replica_reply (accept_all held (take n (accepts_of r))) r ≡ replica_reply held r }
{}

/// Between two calls, whatever a stop leaves of the disk opens to all that the replica holds.
pub fn what_is_settled_stays()
    ensures { (bytes : List ℕ) (loose : Loose) (held : List RegReply) (image : List ℕ) →
        IsSettled bytes loose held → IsImage bytes loose image →
        registers_of image (length held) ≡ held }
{}
