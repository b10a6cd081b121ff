// Turns of bodies: the body on top goes on, up to its next operation or to its end.
ghost use Rattle.std.specs.Prelude.{◌≡◌, IfOk, IfSome, OnOk};
ghost use Rattle.node_trees.specs.Nodes.{IsNode};
ghost use Rattle.ce_algorithms.specs.Body.{told};
ghost use Rattle.ce_algorithms.specs.Steps.{Goes};
ghost use Rattle.ce_frames.specs.Rest as ends;
ghost use Rattle.ce_frames.specs.Turns.{turn};
ghost use Rattle.frame_stack.specs.Sessions.{ArePaired, session};
ghost use Rattle.frame_stack.specs.Stacked.{HasBody, below_top, frames_of, this_of, top_of};
ghost use Rattle.ce_machine.specs.Bodies.{frame_on_top, running_turn};
ghost use Rattle.ce_outcomes.specs.Placed.{Lasts};
ghost use Rattle.ce_outcomes.specs.Turns.{Turns};

use crate::stops::go_on;
use ce_algorithms::Given;
use ce_base::{Fault, NoMemory};
use ce_events::Event;
use ce_operations::State;
use ce_outcomes::Came;
use frame_stack::Stack;
use std::alloc::Global;

/// What the body on top waited for has gone well: what was asked is told, and the body goes on.
pub(crate) fn body_went(
    state: &mut State,
    alloc: Global,
    stack: &mut Stack,
    given: Given,
) -> Result<Came, NoMemory>
    requires body { HasBody (frames_of stack.old) }
    requires paired { ArePaired stack.old state.old }
    requires there { IfSome (this_of (top_of (frames_of stack.old))) (IsNode state.old.page.forest) }
    ensures turn { IfOk result (λ now. Turns (below_top (frames_of stack.old)) (frames_of stack.new) now (session stack.new state.new)
        (turn (frame_on_top stack.old) (ends.Went given) (session stack.old state.old))) }
    ensures paired { OnOk result (ArePaired stack.new state.new) }
    ensures lasts { OnOk result (Lasts state.old.page.forest (turn (frame_on_top stack.old) (ends.Went given) (session stack.old state.old))) }
{
    match tell(state, given) {
        Err(NoMemory) => Err(NoMemory),
        Ok(()) => {
            let now = run(state, alloc, stack)?;
            Ok(now)
        }
    }
}

/// What it waited for has thrown: in a `try` the fault is caught, and the body goes on; else the body has ended.
pub(crate) fn body_threw(
    state: &mut State,
    alloc: Global,
    stack: &mut Stack,
    f: Fault,
) -> Result<Came, NoMemory>
    requires body { HasBody (frames_of stack.old) }
    requires paired { ArePaired stack.old state.old }
    requires there { IfSome (this_of (top_of (frames_of stack.old))) (IsNode state.old.page.forest) }
    ensures turn { IfOk result (λ now. Turns (below_top (frames_of stack.old)) (frames_of stack.new) now (session stack.new state.new)
        (turn (frame_on_top stack.old) (ends.Threw f) (session stack.old state.old))) }
    ensures paired { OnOk result (ArePaired stack.new state.new) }
    ensures lasts { OnOk result (Lasts state.old.page.forest (turn (frame_on_top stack.old) (ends.Threw f) (session stack.old state.old))) }
{
    if !stack.is_guarded() {
        stack.end();
        return Ok(Came::Threw(f));
    }
    match state.log(Event::Caught(f)) {
        Err(NoMemory) => Err(NoMemory),
        Ok(()) => {
            let now = run(state, alloc, stack)?;
            Ok(now)
        }
    }
}

/// The session has ended, and so has the body.
pub(crate) fn body_over(state: &State, stack: &mut Stack) -> Came
    requires body { HasBody (frames_of stack.old) }
    requires paired { ArePaired stack.old state.now }
    ensures turn { Turns (below_top (frames_of stack.old)) (frames_of stack.new) result (session stack.new state.now)
        (turn (frame_on_top stack.old) ends.Over (session stack.old state.now)) }
    ensures paired { ArePaired stack.new state.now }
    ensures lasts { Lasts state.now.page.forest (turn (frame_on_top stack.old) ends.Over (session stack.old state.now)) }
{
    stack.end();
    Came::Over
}

// What was given to a body is told, where it was asked.
fn tell(state: &mut State, given: Given) -> Result<(), NoMemory>
    ensures told { OnOk result (Goes tt state.new ≡ told given state.old) }
    ensures page { state.new.page ≡ state.old.page }
{
    match given {
        Given::Answers(a) => state.log(Event::Asked(a)),
        Given::Nothing => Ok(()),
        Given::Node(_) => Ok(()),
        Given::Ignored => Ok(()),
    }
}

// The body on top runs, through any number of actions that are no operation.
fn run(state: &mut State, alloc: Global, stack: &mut Stack) -> Result<Came, NoMemory>
    requires body { HasBody (frames_of stack.old) }
    requires paired { ArePaired stack.old state.old }
    requires there { IfSome (this_of (top_of (frames_of stack.old))) (IsNode state.old.page.forest) }
    ensures turn { IfOk result (λ now. Turns (below_top (frames_of stack.old)) (frames_of stack.new) now (session stack.new state.new)
        (running_turn (frame_on_top stack.old) (session stack.old state.old))) }
    ensures paired { OnOk result (ArePaired stack.new state.new) }
    ensures lasts { OnOk result (Lasts state.old.page.forest (running_turn (frame_on_top stack.old) (session stack.old state.old))) }
{
    loop {
        if let Some(now) = go_on(state, alloc, stack)? {
            return Ok(now);
        }
    }
}
