// Deeds that react: a queue is pushed, the steps are done, the queue is popped and is to be drained.
ghost use Rattle.std.specs.Prelude.{◌≡◌, ◌≤◌, ◌+◌, ◌<◌, ◌^◌, IfOk, OnOk};
ghost use Rattle.node_trees.specs.Nodes.{size};
ghost use Rattle.node_trees.specs.Trees.{Trees};
ghost use Rattle.ce_algorithms.specs.Deeds.{IsStill};
ghost use Rattle.ce_algorithms.specs.declared.deed.Deed.TheVariants as deeds;
ghost use Rattle.ce_algorithms.specs.declared.given.Given.{Given as IsGiven};
ghost use Rattle.ce_algorithms.specs.Model.{model};
ghost use Rattle.ce_algorithms.specs.Perform.{steps};
ghost use Rattle.ce_algorithms.specs.State.{State as IsState};
ghost use Rattle.ce_algorithms.specs.Steps.{Outcome, attempt_in};
ghost use Rattle.ce_frames.specs.OperateTurns.{deed_turn, pop_turn, steps_turn};
ghost use Rattle.ce_frames.specs.Turned.{turn_after};
ghost use Rattle.ce_page.specs.Ends.{Ends};
ghost use Rattle.frame_stack.specs.Sessions.{ArePaired, session};
ghost use Rattle.frame_stack.specs.Stacked.{behaviours_of, frames_of};
ghost use Rattle.ce_drains.specs.Blind.{BlindAt};
ghost use Rattle.ce_outcomes.specs.Turns.{Turns};
ghost use Rattle.ce_outcomes.specs.Given.{IsThere};
ghost use Rattle.ce_outcomes.specs.Placed.{Lasts};
ghost use Rattle.ce_operations.specs.Ready.{IsReady};

use ce_algorithms::{Deed, Given};
use ce_base::{NoMemory, NodeNo, QueueNo, Text};
use ce_drains::{construct, create_named, pop_turn};
use ce_operations::State;
use ce_operations::deeds::run;
use ce_outcomes::{Came, came_from};
use ce_page::PageStop;
use frame_stack::{Stack, Waiting};
use std::alloc::Global;

/// Does a deed. A construction, and a creation, may wait for a constructor's body; the steps of the others wait for nothing.
pub(crate) fn deed_turn(
    state: &mut State,
    alloc: Global,
    stack: &mut Stack,
    deed: Deed,
) -> Result<Came, NoMemory>
    requires ready { IsReady state.old.page.forest deed }
    requires paired { ArePaired stack.old state.old }
    requires room { state.old.page.queues.pushed + state.old.fuel + 1 < 2 ^ 64 }
    ensures turn { IfOk result
        (λ now. Turns (frames_of stack.old) (frames_of stack.new) now (session stack.new state.new) (deed_turn deed (session stack.old state.old))) }
    ensures paired { OnOk result (ArePaired stack.new state.new) }
    ensures lasts { OnOk result (Lasts state.old.page.forest (deed_turn deed (session stack.old state.old))) }
{
    match deed {
        Deed::Create {
            local,
            is_value,
            document,
        } => create_turn(state, alloc, stack, &local, is_value, document),
        Deed::New { class } => construct(state, alloc, stack, class),
        deed => still_turn(state, alloc, stack, deed),
    }
}

// A creation, in a queue of its own, which waits for it.
fn create_turn(
    state: &mut State,
    alloc: Global,
    stack: &mut Stack,
    name: &Text,
    is: Option<Text>,
    document: NodeNo,
) -> Result<Came, NoMemory>
    requires paired { ArePaired stack.old state.old }
    requires room { state.old.page.queues.pushed + state.old.fuel + 1 < 2 ^ 64 }
    ensures turn { IfOk result (λ now. Turns (frames_of stack.old) (frames_of stack.new) now (session stack.new state.new)
        (deed_turn (deeds.Create name.now is document) (session stack.old state.old))) }
    ensures paired { OnOk result (ArePaired stack.new state.new) }
    ensures lasts { OnOk result (Lasts state.old.page.forest (deed_turn (deeds.Create name.now is document) (session stack.old state.old))) }
{
    match state.open_queue(alloc) {
        Err(NoMemory) => Err(NoMemory),
        Ok(queue) => {
            stack.push(Waiting::Stepping(queue))?;
            let now = create_named(state, alloc, stack, name, is, document)?;
            Ok(now)
        }
    }
}

// Does a deed whose steps wait for nothing, in a queue of its own where it reacts.
fn still_turn(
    state: &mut State,
    alloc: Global,
    stack: &mut Stack,
    deed: Deed,
) -> Result<Came, NoMemory>
    requires ready { IsReady state.old.page.forest deed }
    requires still { IsStill deed }
    requires room { state.old.page.queues.pushed + state.old.fuel + 1 < 2 ^ 64 }
    ensures turn { IfOk result (λ now. Turns (frames_of stack.old) (frames_of stack.new) now state.new (deed_turn deed state.old)) }
    ensures same { OnOk result (behaviours_of stack.new ≡ behaviours_of stack.old) }
    ensures blind { OnOk result (BlindAt (deed_turn deed) state.old) }
    ensures lasts { OnOk result (Lasts state.old.page.forest (deed_turn deed state.old)) }
{
    if deed.is_reacting() {
        let now = react(state, alloc, stack, deed)?;
        Ok(now)
    } else {
        let ran = run(state, alloc, deed);
        let now = came_from(ran)?;
        Ok(now)
    }
}

fn react(state: &mut State, alloc: Global, stack: &mut Stack, deed: Deed) -> Result<Came, NoMemory>
    requires ready { IsReady state.old.page.forest deed }
    requires still { IsStill deed }
    requires room { state.old.page.queues.pushed + state.old.fuel + 1 < 2 ^ 64 }
    ensures turn { IfOk result (λ now. Turns (frames_of stack.old) (frames_of stack.new) now state.new (steps_turn (steps model deed) state.old)) }
    ensures same { OnOk result (behaviours_of stack.new ≡ behaviours_of stack.old) }
    ensures lasts { OnOk result (Lasts state.old.page.forest (steps_turn (steps model deed) state.old)) }
{
    match state.open_queue(alloc) {
        Err(NoMemory) => {
            drop(deed);
            Err(NoMemory)
        }
        Ok(queue) => {
            let ran = run(state, alloc, deed);
            let now = stepped(state, stack, queue, ran)?;
            Ok(now)
        }
    }
}

// The steps have ended.
fn stepped(
    state: &mut State,
    stack: &mut Stack,
    queue: QueueNo,
    ran: Result<Given, PageStop>,
) -> Result<Came, NoMemory>
    requires { IfOk ran (IsThere state.old.page.forest) }
    ensures turn { (o : Outcome IsState IsGiven) → Ends (λ g. g) ran state.old o
        → IfOk result (λ now. Turns (frames_of stack.old) (frames_of stack.new) now state.new (turn_after (attempt_in o) (pop_turn queue))) }
    ensures same { OnOk result (behaviours_of stack.new ≡ behaviours_of stack.old) }
    ensures lasts { (f : Trees) (o : Outcome IsState IsGiven) → size f ≤ size state.old.page.forest → Ends (λ g. g) ran state.old o
        → OnOk result (Lasts f (turn_after (attempt_in o) (pop_turn queue))) }
{
    match ran {
        Ok(given) => {
            let now = pop_turn(state, stack, queue, Ok(given))?;
            Ok(now)
        }
        Err(PageStop::Refused(f)) => {
            let now = pop_turn(state, stack, queue, Err(f))?;
            Ok(now)
        }
        Err(PageStop::FuelSpent) => Ok(Came::Over),
        Err(PageStop::NoMemory) => Err(NoMemory),
    }
}
