// What comes of upgrades (HTML Standard, section "Upgrades", "upgrade an element").
ghost use Rattle.std.specs.Prelude.{◌≡◌, ◌≤◌, IfOk};
ghost use Rattle.node_trees.specs.Nodes.{size};
ghost use Rattle.ce_algorithms.specs.State.{State as IsState};
ghost use Rattle.ce_algorithms.specs.Steps.{settle};
ghost use Rattle.ce_frames.specs.Frames as waiting;
ghost use Rattle.ce_frames.specs.ConstructTurns.{same_given, upgraded_turn};
ghost use Rattle.ce_frames.specs.Turned.{ended};
ghost use Rattle.ce_frames.specs.Turns.{turn_went};
ghost use Rattle.ce_outcomes.specs.Turns.{came_in};

use crate::came::{Came, came_from};
use ce_algorithms::Given;
use ce_base::{DefNo, Fault, NoMemory, NodeNo};
use session_state::State;
use session_state::page_calls::gives_nothing;
use std::alloc::Global;

/// What was constructed for an upgrade has to be the element itself, which then is custom; or the upgrade threw
/// TypeError (HTML Standard, section "Upgrades", "upgrade an element"). Over where no fuel is left for what its end
/// enqueues. NoMemory: see `Came`.
pub fn constructed_turn(
    state: &mut State,
    alloc: Global,
    n: NodeNo,
    d: DefNo,
    given: Given,
) -> Result<Came, NoMemory>
    ensures turn { IfOk result (λ now. ended (came_in now state.new) ≡ turn_went (waiting.Upgrading n d) given state.old) }
    ensures grows { size state.old.page.forest ≤ size state.new.page.forest }
{
    let tested = same_given(n, given);
    let now = upgraded_turn(state, alloc, n, d, tested)?;
    Ok(now)
}

// TypeError where what was given is not this node.
fn same_given(n: NodeNo, given: Given) -> Result<(), Fault>
    ensures { (s : IsState) → settle result s ≡ same_given n given s }
{
    match given {
        Given::Node(m) => {
            if m == n {
                return Ok(());
            }
            Err(Fault::TypeError)
        }
        Given::Nothing => Err(Fault::TypeError),
        Given::Answers(_) => Err(Fault::TypeError),
        Given::Ignored => Err(Fault::TypeError),
    }
}

/// An upgrade ends, or it threw, and the fault is thrown on (HTML Standard, section "Upgrades", "upgrade an element").
/// In each case the construction stack loses its last entry. Over where no fuel is left for what its end enqueues.
/// NoMemory: see `Came`.
pub fn upgraded_turn(
    state: &mut State,
    alloc: Global,
    n: NodeNo,
    d: DefNo,
    constructed: Result<(), Fault>,
) -> Result<Came, NoMemory>
    ensures turn { IfOk result (λ now. ended (came_in now state.new) ≡ upgraded_turn n d constructed state.old) }
    ensures grows { size state.old.page.forest ≤ size state.new.page.forest }
{
    state.pop_construction(d)?;
    match constructed {
        Ok(()) => {
            let done = gives_nothing(state.upgrade_ends(alloc, n));
            let now = came_from(done)?;
            Ok(now)
        }
        Err(f) => {
            state.upgrade_threw(alloc, n)?;
            Ok(Came::Threw(f))
        }
    }
}
