// Turns of upgrades (HTML Standard, section "Upgrades", "upgrade an element").
ghost use Rattle.std.specs.Prelude.{◌≡◌, ◌≤◌, IfOk, OnOk};
ghost use Rattle.node_trees.specs.Kinds.{IsElement};
ghost use Rattle.node_trees.specs.Nodes.{IsNode, size};
ghost use Rattle.ce_algorithms.specs.Upgrade.{is_upgradable};
ghost use Rattle.ce_frames.specs.ConstructTurns.{construct_for_turn, upgrade_now_turn, upgrade_turn};
ghost use Rattle.frame_stack.specs.Sessions.{ArePaired, session};
ghost use Rattle.frame_stack.specs.Stacked.{frames_of};
ghost use Rattle.ce_outcomes.specs.Turns.{Turns};

use crate::constructions::construct;
use ce_algorithms::Given;
use ce_base::{CustomState, DefNo, Fault, NoMemory, NodeNo};
use ce_events::Event;
use ce_outcomes::create::class_of;
use ce_outcomes::{Came, PageStop, State};
use frame_stack::{Stack, Waiting};
use std::alloc::Global;

/// An element is upgraded by a definition (HTML Standard, section "Upgrades", "upgrade an element"). One that is
/// failed, precustomized or custom is left as it is.
///
/// Over where no fuel is left for what the upgrade enqueues. Then it threw NotSupportedError where the definition
/// disables shadow and the element has a shadow root. Else it came as `construct` says. NoMemory: see `Came`.
pub fn upgrade_turn(
    state: &mut State,
    alloc: Global,
    stack: &mut Stack,
    n: NodeNo,
    d: DefNo,
) -> Result<Came, NoMemory>
    requires element { IsElement state.old.page.forest n }
    requires paired { ArePaired stack.old state.old }
    ensures turn { IfOk result (λ now. Turns (frames_of stack.old) (frames_of stack.new) now (session stack.new state.new)
        (upgrade_turn n d (session stack.old state.old))) }
    ensures paired { OnOk result (ArePaired stack.new state.new) }
    ensures grows { size state.old.page.forest ≤ size state.new.page.forest }
{
    if is_upgradable(state.custom_state(n)) {
        let now = upgrade_now(state, alloc, stack, n, d)?;
        return Ok(now);
    }
    Ok(Came::Went(Given::Nothing))
}

fn is_upgradable(state: CustomState) -> bool
    ensures { result ≡ is_upgradable state }
{
    match state {
        CustomState::Undefined => true,
        CustomState::Failed => false,
        CustomState::Uncustomized => true,
        CustomState::Precustomized => false,
        CustomState::Custom => false,
    }
}

// Its upgrade begins: the steps before the construction, for which it waits then.
fn upgrade_now(
    state: &mut State,
    alloc: Global,
    stack: &mut Stack,
    n: NodeNo,
    d: DefNo,
) -> Result<Came, NoMemory>
    requires element { IsElement state.old.page.forest n }
    requires paired { ArePaired stack.old state.old }
    ensures turn { IfOk result (λ now. Turns (frames_of stack.old) (frames_of stack.new) now (session stack.new state.new)
        (upgrade_now_turn n d (session stack.old state.old))) }
    ensures paired { OnOk result (ArePaired stack.new state.new) }
    ensures grows { size state.old.page.forest ≤ size state.new.page.forest }
{
    state.log(Event::UpgradeBegun(n))?;
    match state.begin_upgrade(alloc, n, d) {
        Ok(()) => {
            stack.push(Waiting::Upgrading(n, d))?;
            let now = construct_for(state, alloc, stack, n, d)?;
            Ok(now)
        }
        Err(PageStop::Refused(f)) => Ok(Came::Threw(f)),
        Err(PageStop::FuelSpent) => Ok(Came::Over),
        Err(PageStop::NoMemory) => Err(NoMemory),
    }
}

// The class of its definition is constructed, unless the definition disables shadow and it has a shadow root.
fn construct_for(
    state: &mut State,
    alloc: Global,
    stack: &mut Stack,
    n: NodeNo,
    d: DefNo,
) -> Result<Came, NoMemory>
    requires node { IsNode state.old.page.forest n }
    requires paired { ArePaired stack.old state.old }
    ensures turn { IfOk result (λ now. Turns (frames_of stack.old) (frames_of stack.new) now (session stack.new state.new)
        (construct_for_turn n d (session stack.old state.old))) }
    ensures paired { OnOk result (ArePaired stack.new state.new) }
    ensures grows { size state.old.page.forest ≤ size state.new.page.forest }
{
    if state.is_shadow_refused(n, d) {
        return Ok(Came::Threw(Fault::NotSupportedError));
    }
    state.set_state(n, CustomState::Precustomized);
    let class = class_of(state, d);
    let now = construct(state, alloc, stack, class)?;
    Ok(now)
}
