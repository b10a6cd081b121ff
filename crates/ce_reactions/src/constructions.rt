// Turns of constructions (Web IDL, section "Invoking callback functions", "construct a callback function").
ghost use Rattle.std.specs.Prelude.{◌≡◌, ◌≤◌, IfOk, OnOk};
ghost use Rattle.node_trees.specs.Nodes.{size};
ghost use Rattle.ce_algorithms.specs.Construction.{base_call};
ghost use Rattle.ce_algorithms.specs.Perform.{gives_node};
ghost use Rattle.ce_algorithms.specs.State.{on_page};
ghost use Rattle.ce_frames.specs.ConstructTurns.{construct_turn};
ghost use Rattle.frame_stack.specs.Sessions.{ArePaired, session};
ghost use Rattle.frame_stack.specs.Stacked.{frames_of};
ghost use Rattle.ce_reactions.specs.Constructors.{own_turn};
ghost use Rattle.ce_outcomes.specs.Placed.{IsEndThere, Lasts};
ghost use Rattle.ce_outcomes.specs.Turns.{Turns, came_in};

use behaviours::Args;
use ce_algorithms::Given;
use ce_base::{ClassNo, NoMemory};
use ce_outcomes::page_calls::gives_node;
use ce_outcomes::{Came, State, came_from};
use frame_stack::{Stack, Waiting};
use rule_tokens::CallName;
use std::alloc::Global;

/// A class is constructed: the body of its constructor begins (Web IDL, section "Invoking callback functions",
/// "construct a callback function"). The constructor of a class that has none of its own is the base call alone, which
/// waits for nothing. Only that throws here (TypeError) or finds no fuel (Over). NoMemory: see `Came`.
pub fn construct(
    state: &mut State,
    alloc: Global,
    stack: &mut Stack,
    class: ClassNo,
) -> Result<Came, NoMemory>
    requires paired { ArePaired stack.old state.old }
    ensures turn { IfOk result (λ now. Turns (frames_of stack.old) (frames_of stack.new) now (session stack.new state.new)
        (construct_turn class (session stack.old state.old))) }
    ensures paired { OnOk result (ArePaired stack.new state.new) }
    ensures grows { size state.old.page.forest ≤ size state.new.page.forest }
    ensures lasts { OnOk result (Lasts state.old.page.forest (construct_turn class (session stack.old state.old))) }
{
    state.log_construction(alloc, class)?;
    if state.has_constructor(class) {
        let now = begin(state, alloc, stack, class)?;
        return Ok(now);
    }
    let now = base_alone(state, alloc, class)?;
    Ok(now)
}

// The base call alone.
fn base_alone(state: &mut State, alloc: Global, class: ClassNo) -> Result<Came, NoMemory>
    ensures step { IfOk result (λ now. came_in now state.new ≡ gives_node (on_page (base_call class)) state.old) }
    ensures there { IfOk result (IsEndThere state.new.page.forest) }
    ensures grows { size state.old.page.forest ≤ size state.new.page.forest }
{
    let made = gives_node(state.base_call(alloc, class));
    let now = came_from(made)?;
    Ok(now)
}

// The body of a class's own constructor begins.
fn begin(state: &State, alloc: Global, stack: &mut Stack, class: ClassNo) -> Result<Came, NoMemory>
    requires paired { ArePaired stack.old state.now }
    ensures turn { IfOk result
        (λ now. Turns (frames_of stack.old) (frames_of stack.new) now (session stack.new state.now) (own_turn class (session stack.old state.now))) }
    ensures paired { OnOk result (ArePaired stack.new state.now) }
{
    let args = Args::none(alloc)?;
    stack.push(Waiting::Constructing)?;
    stack.begin(class, CallName::Constructor, args, None)?;
    Ok(Came::Went(Given::Nothing))
}
