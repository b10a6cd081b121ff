// Turns of creations (DOM Standard, section "Interface Element", "create an element").
ghost use Rattle.std.specs.Prelude.{◌≡◌, ◌≤◌, ℕ, List, Option, Some, true, IfOk, OnOk};
ghost use Rattle.ce_registry.specs.Registry.{is_autonomous};
ghost use Rattle.ce_algorithms.specs.Page.{definition_at};
ghost use Rattle.ce_frames.specs.ConstructTurns.{create_extended_turn, create_found_turn, create_turn};
ghost use Rattle.ce_frames.specs.OperateTurns.{create_named_turn};
ghost use Rattle.frame_stack.specs.Sessions.{ArePaired, session};
ghost use Rattle.frame_stack.specs.Stacked.{frames_of};
ghost use Rattle.ce_outcomes.specs.Placed.{Lasts};
ghost use Rattle.ce_outcomes.specs.Turns.{Turns};

use crate::constructions::construct;
use crate::upgrades::upgrade_turn;
use ce_base::{CustomState, DefNo, Fault, NoMemory, NodeNo, Text};
use ce_outcomes::create::{class_of, create_undefined, is_autonomous, lookup};
use ce_outcomes::page_calls::{gives_node, lowercased};
use ce_outcomes::{Came, PageStop, State, came_from};
use element_names::is_local_name;
use frame_stack::{Stack, Waiting};
use std::alloc::Global;

/// A creation begins: its name is tested (DOM Standard, section "Interface Document", `createElement`). Where it is no
/// element's local name, it threw InvalidCharacterError, and nothing has changed. Over where no fuel is left for a new
/// element. Where the look-up gives no definition, it gave the new element. Else it came as `construct` or `upgrade_turn`
/// says. NoMemory: see `Came`.
pub fn create_named(
    state: &mut State,
    alloc: Global,
    stack: &mut Stack,
    name: &Text,
    is: Option<Text>,
    document: NodeNo,
) -> Result<Came, NoMemory>
    requires paired { ArePaired stack.old state.old }
    ensures turn { IfOk result (λ now. Turns (frames_of stack.old) (frames_of stack.new) now (session stack.new state.new)
        (create_named_turn name.now is document (session stack.old state.old))) }
    ensures paired { OnOk result (ArePaired stack.new state.new) }
    ensures lasts { OnOk result (Lasts state.old.page.forest (create_named_turn name.now is document (session stack.old state.old))) }
{
    if !is_local_name(name.as_str()) {
        return Ok(Came::Threw(Fault::InvalidCharacterError));
    }
    let local = lowercased(alloc, name.as_str())?;
    let now = create(state, alloc, stack, local, is, document)?;
    Ok(now)
}

// By what the look-up gives.
fn create(
    state: &mut State,
    alloc: Global,
    stack: &mut Stack,
    local: Text,
    is: Option<Text>,
    document: NodeNo,
) -> Result<Came, NoMemory>
    requires paired { ArePaired stack.old state.old }
    ensures turn { IfOk result (λ now. Turns (frames_of stack.old) (frames_of stack.new) now (session stack.new state.new)
        (create_turn local is document (session stack.old state.old))) }
    ensures paired { OnOk result (ArePaired stack.new state.new) }
    ensures lasts { OnOk result (Lasts state.old.page.forest (create_turn local is document (session stack.old state.old))) }
{
    match lookup(state, &local, &is, document) {
        None => {
            let made = gives_node(create_undefined(state, alloc, local, is, document));
            let now = came_from(made)?;
            Ok(now)
        }
        Some(d) => {
            let now = create_found(state, alloc, stack, local, is, document, d)?;
            Ok(now)
        }
    }
}

// By the definition that was found: it extends an element, or it is autonomous.
fn create_found(
    state: &mut State,
    alloc: Global,
    stack: &mut Stack,
    local: Text,
    is: Option<Text>,
    document: NodeNo,
    d: DefNo,
) -> Result<Came, NoMemory>
    requires paired { ArePaired stack.old state.old }
    ensures turn { IfOk result (λ now. Turns (frames_of stack.old) (frames_of stack.new) now (session stack.new state.new)
        (create_found_turn local is document (Some d) (session stack.old state.old))) }
    ensures paired { OnOk result (ArePaired stack.new state.new) }
    ensures lasts { OnOk result (Lasts state.old.page.forest (create_found_turn local is document (Some d) (session stack.old state.old))) }
{
    if is_autonomous(state, d) {
        drop(is);
        let now = create_fit(state, alloc, stack, local, document, d)?;
        return Ok(now);
    }
    let now = create_extended(state, alloc, stack, local, is, document, d)?;
    Ok(now)
}

// The definition is autonomous: its class is constructed.
fn create_fit(
    state: &mut State,
    alloc: Global,
    stack: &mut Stack,
    local: Text,
    document: NodeNo,
    d: DefNo,
) -> Result<Came, NoMemory>
    requires autonomous { is_autonomous (definition_at state.old.page d) ≡ true }
    requires paired { ArePaired stack.old state.old }
    ensures turn { (is : Option (List ℕ)) → IfOk result (λ now. Turns (frames_of stack.old) (frames_of stack.new) now (session stack.new state.new)
        (create_found_turn local is document (Some d) (session stack.old state.old))) }
    ensures paired { OnOk result (ArePaired stack.new state.new) }
    ensures lasts { (is : Option (List ℕ))
        → OnOk result (Lasts state.old.page.forest (create_found_turn local is document (Some d) (session stack.old state.old))) }
{
    let class = class_of(state, d);
    stack.push(Waiting::CreatingFit(local, document))?;
    let now = construct(state, alloc, stack, class)?;
    Ok(now)
}

// The definition extends an element: a new element is made, and upgraded.
fn create_extended(
    state: &mut State,
    alloc: Global,
    stack: &mut Stack,
    local: Text,
    is: Option<Text>,
    document: NodeNo,
    d: DefNo,
) -> Result<Came, NoMemory>
    requires paired { ArePaired stack.old state.old }
    ensures turn { IfOk result (λ now. Turns (frames_of stack.old) (frames_of stack.new) now (session stack.new state.new)
        (create_extended_turn local is document d (session stack.old state.old))) }
    ensures paired { OnOk result (ArePaired stack.new state.new) }
    ensures lasts { OnOk result (Lasts state.old.page.forest (create_extended_turn local is document d (session stack.old state.old))) }
{
    match state.make_in_state(alloc, local, is, document, CustomState::Undefined) {
        Ok(n) => {
            stack.push(Waiting::CreatingExtended(n))?;
            let now = upgrade_turn(state, alloc, stack, n, d)?;
            Ok(now)
        }
        Err(PageStop::Refused(f)) => Ok(Came::Threw(f)),
        Err(PageStop::FuelSpent) => Ok(Came::Over),
        Err(PageStop::NoMemory) => Err(NoMemory),
    }
}
