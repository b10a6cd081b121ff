// What comes of constructions (Web IDL, section "Invoking callback functions", "construct a callback function").
ghost use Rattle.std.specs.Prelude.{◌≡◌};
ghost use Rattle.ce_algorithms.specs.State.{State as IsState};
ghost use Rattle.ce_frames.specs.Frames as waiting;
ghost use Rattle.ce_frames.specs.Turned.{ended};
ghost use Rattle.ce_frames.specs.Turns.{turn_went};
ghost use Rattle.ce_outcomes.specs.Turns.{came_in};

use crate::came::Came;
use ce_algorithms::Given;
use ce_base::Fault;

/// The body of a constructor has ended: it has to have given a node (Web IDL, section "Invoking callback functions",
/// "construct a callback function"). ReferenceError where it has not.
pub fn given_turn(given: Given) -> Came
    ensures { (s : IsState) → ended (came_in result s) ≡ turn_went waiting.Constructing given s }
{
    match given {
        Given::Node(n) => Came::Went(Given::Node(n)),
        Given::Nothing => Came::Threw(Fault::ReferenceError),
        Given::Answers(_) => Came::Threw(Fault::ReferenceError),
        Given::Ignored => Came::Threw(Fault::ReferenceError),
    }
}
