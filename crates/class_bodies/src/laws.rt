// What holds of bodies that stop and go on: statements, each proved as the contract of a function that does nothing.
ghost use Rattle.std.specs.Prelude.{◌≡◌, ℕ, List, Option, Some, slice_get};
ghost use Rattle.rule_lines.specs.Acts.{Act};
ghost use Rattle.ce_algorithms.specs.State.{Class, State};
ghost use Rattle.ce_algorithms.specs.Values.{Args};
ghost use Rattle.ce_frames.specs.BodyTurns.{body_turn};
ghost use Rattle.class_bodies.specs.Resume.{resumed};
ghost use Rattle.class_bodies.specs.Turns.{resumed_turn};

/// The turn of a body is what `Behaviour::resume` does of it, and then the turn from where that stopped: in the
/// state with what the class then remembers and with the fuel that is then left.
#[tactic(auto, using(crate::proofs::Resumes::body_resumes))]
pub fn a_body_goes_on_where_it_stopped()
    ensures { (class : ℕ) (args : Args) (this : Option ℕ) (actions : List Act) (s : State) (k : Class) → slice_get s.classes class ≡ Some k
        → body_turn class args this actions s ≡ resumed_turn class args this (resumed args actions k.memory s.fuel) s }
{}
