// How what was waited for has ended.
ghost use Rattle.std.specs.Prelude.{◌≡◌, Err, IfErr, IfOk};
ghost use Rattle.node_trees.specs.Trees.{Trees};
ghost use Rattle.ce_algorithms.specs.declared.given.Given.{Given as IsGiven};
ghost use Rattle.ce_algorithms.specs.State.{State};
ghost use Rattle.ce_algorithms.specs.Steps.{Outcome};
ghost use Rattle.session_state.specs.Ends.{Ends};
ghost use Rattle.session_state.specs.Given.{IsThere};
ghost use Rattle.ce_outcomes.specs.Placed.{IsEndThere};
ghost use Rattle.ce_outcomes.specs.Turns.{came_in, came_of};

use ce_algorithms::Given;
use ce_base::{Fault, NoMemory};
use session_state::page_calls::PageStop;

/// How what was waited for has ended.
///
/// A turn gives NoMemory in its place where memory was refused, and the state and the stack are only dropped then.
#[derive(Drop)]
pub enum Came {
    /// It gave this.
    Went(Given),
    /// It threw.
    Threw(Fault),
    /// The fuel is spent, and the session has ended.
    Over,
}

/// What the steps gave, or their fault.
pub fn came_of(kept: Result<Given, Fault>) -> Came
    ensures { result ≡ came_of kept }
{
    match kept {
        Ok(given) => Came::Went(given),
        Err(f) => Came::Threw(f),
    }
}

/// How a step of the session has ended. NoMemory exactly where memory was refused.
pub fn came_from(outcome: Result<Given, PageStop>) -> Result<Came, NoMemory>
    ensures came { (s : State) (o : Outcome State IsGiven) → Ends (λ g. g) outcome s o → IfOk result (λ now. came_in now s ≡ o) }
    ensures memory { IfErr result (λ e. outcome ≡ Err PageStop.NoMemory) }
    ensures there { (f : Trees) → IfOk outcome (IsThere f) → IfOk result (IsEndThere f) }
{
    match outcome {
        Ok(given) => Ok(Came::Went(given)),
        Err(PageStop::Refused(f)) => Ok(Came::Threw(f)),
        Err(PageStop::FuelSpent) => Ok(Came::Over),
        Err(PageStop::NoMemory) => Err(NoMemory),
    }
}
