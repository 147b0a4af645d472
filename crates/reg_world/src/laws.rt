//! The words over the replicas and the marks alone say what the machine's say.

ghost use Rattle.std.specs.Prelude.{◌≡◌, ℕ};
ghost use Rattle.rss_names.specs.declared.service.Key.{Key};
ghost use Rattle.rss_names.specs.declared.service.ServiceId.{ServiceId};
ghost use Rattle.rss_wire.specs.declared.messages.Request.{Request};
ghost use Rattle.rss_machine.specs.Moves.{serves_replica, notes_served};
ghost use Rattle.rss_machine.specs.State.{State, cells_at, marks_at, replicas_at};
ghost use Rattle.reg_world.specs.Served.{replicas_in, cells_in, marks_in, served_by, noted_after};

/// The replicas of a service, what one of them holds, and the marks of a register are those of the
/// machine's state.
pub fn reads_as_the_machine()
    ensures replicas { (s : State) (service : ServiceId) → replicas_at s service ≡ replicas_in s.replicas service }
    ensures cells { (s : State) (service : ServiceId) (replica : ℕ) → cells_at s service replica ≡ cells_in s.replicas service replica }
    ensures marks { (s : State) (key : Key) → marks_at s key ≡ marks_in s.marks key }
{}

/// A request that a replica serves changes the replicas and the marks as the machine's moves do.
pub fn serves_as_the_machine()
    ensures replicas { (s : State) (message owner : ℕ) (service : ServiceId) (replica : ℕ) (r : Request) →
        (notes_served (serves_replica s message service replica r) owner service r).replicas ≡ served_by s.replicas service replica r }
    ensures marks { (s : State) (message owner : ℕ) (service : ServiceId) (replica : ℕ) (r : Request) →
        (notes_served (serves_replica s message service replica r) owner service r).marks ≡ noted_after (served_by s.replicas service replica r) service s.steps r s.marks }
{}
