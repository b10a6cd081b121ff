// What comes of creations (DOM Standard, section "Interface Element", "create an element").
ghost use Rattle.std.specs.Prelude.{◌≡◌, ◌≤◌, IfOk};
ghost use Rattle.node_trees.specs.Nodes.{size};
ghost use Rattle.ce_frames.specs.Frames as waiting;
ghost use Rattle.ce_frames.specs.Turned.{ended};
ghost use Rattle.ce_frames.specs.Turns.{turn_threw, turn_went};
ghost use Rattle.session_state.specs.Given.{IsThere};
ghost use Rattle.ce_outcomes.specs.Placed.{IsEndThere};
ghost use Rattle.ce_outcomes.specs.Turns.{came_in};

use crate::came::{Came, came_from};
use crate::create::{create_failed, misfit};
use ce_algorithms::Given;
use ce_base::{CustomState, Fault, NoMemory, NodeNo, Text};
use ce_events::Event;
use session_state::State;
use session_state::page_calls::gives_node;
use std::alloc::Global;

/// What was constructed for a creation is tested, and is the answer; or the fault is reported, and a failed element
/// is (DOM Standard, section "Interface Element", "create an element"). Over exactly where no fuel is left for that.
/// NoMemory: see `Came`.
pub fn fit_turn(
    state: &mut State,
    alloc: Global,
    local: Text,
    document: NodeNo,
    given: Given,
) -> Result<Came, NoMemory>
    requires { IsThere state.old.page.forest given }
    ensures turn { IfOk result (λ now. ended (came_in now state.new) ≡ turn_went (waiting.CreatingFit local document) given state.old) }
    ensures grows { size state.old.page.forest ≤ size state.new.page.forest }
    ensures there { IfOk result (IsEndThere state.new.page.forest) }
{
    match given {
        Given::Node(n) => match misfit(state, local.as_str(), document, n) {
            None => Ok(Came::Went(Given::Node(n))),
            Some(f) => failed_turn(state, alloc, local, document, f),
        },
        Given::Nothing => failed_turn(state, alloc, local, document, Fault::TypeError),
        Given::Answers(_) => failed_turn(state, alloc, local, document, Fault::TypeError),
        Given::Ignored => failed_turn(state, alloc, local, document, Fault::TypeError),
    }
}

/// The construction for a creation threw: the fault is reported, and a failed element is the answer (DOM Standard,
/// section "Interface Element", "create an element"). Over exactly where no fuel is left for it. NoMemory: see `Came`.
pub fn failed_turn(
    state: &mut State,
    alloc: Global,
    local: Text,
    document: NodeNo,
    f: Fault,
) -> Result<Came, NoMemory>
    ensures turn { IfOk result (λ now. ended (came_in now state.new) ≡ turn_threw (waiting.CreatingFit local document) f state.old) }
    ensures grows { size state.old.page.forest ≤ size state.new.page.forest }
    ensures there { IfOk result (IsEndThere state.new.page.forest) }
{
    let made = gives_node(create_failed(state, alloc, local, document, f));
    let now = came_from(made)?;
    Ok(now)
}

/// The upgrade for a creation threw: the fault is reported, and the new element, which is failed, is the answer (DOM
/// Standard, section "Interface Element", "create an element"). NoMemory: see `Came`.
pub fn extended_threw(state: &mut State, n: NodeNo, f: Fault) -> Result<Came, NoMemory>
    ensures turn { IfOk result (λ now. ended (came_in now state.new) ≡ turn_threw (waiting.CreatingExtended n) f state.old) }
    ensures grows { size state.old.page.forest ≤ size state.new.page.forest }
{
    state.log(Event::Reported(f))?;
    state.set_state(n, CustomState::Failed);
    Ok(Came::Went(Given::Node(n)))
}
