// Turns of operations: what they come to is resolved, and done; their variable waits for it.
ghost use Rattle.std.specs.Prelude.{◌≡◌, ◌≤◌, ◌+◌, ◌++◌, ◌<◌, ◌^◌, ℕ, Option, Result, Some, true, IfOk, IfSome, OnOk};
ghost use Rattle.node_trees.specs.Nodes.{IsNode, size};
ghost use Rattle.ce_algorithms.specs.Deeds.{variable};
ghost use Rattle.ce_algorithms.specs.Making.{make_document};
ghost use Rattle.ce_algorithms.specs.Perform.{gives_node};
ghost use Rattle.ce_algorithms.specs.declared.deed.Deed.{Deed as IsDeed};
ghost use Rattle.ce_algorithms.specs.State.{View, on_page, view};
ghost use Rattle.ce_base.specs.declared.fault.Fault.{Fault as IsFault};
ghost use Rattle.ce_operations.specs.Resolved.{Resolves};
ghost use Rattle.ce_frames.specs.Loop.{command_turn, perform_turn};
ghost use Rattle.ce_frames.specs.OperateTurns.{deed_turn, named_turn, operate_turn, resolved_turn, user_turn};
ghost use Rattle.ce_frames.specs.Turned.{hand_down};
ghost use Rattle.ce_page.specs.Ends.{Ends};
ghost use Rattle.frame_stack.specs.Sessions.{ArePaired, session};
ghost use Rattle.frame_stack.specs.Stacked.{behaviours_of, frames_of};
ghost use Rattle.ce_drains.specs.Blind.{BlindAt};
ghost use Rattle.ce_machine.specs.Turns.{naming};
ghost use Rattle.ce_outcomes.specs.Turns.{Turns};
ghost use Rattle.ce_outcomes.specs.Given.{IsThere};
ghost use Rattle.ce_outcomes.specs.Placed.{StaysPlaced};
ghost use Rattle.ce_operations.specs.ByUser.{IsByUser};
ghost use Rattle.ce_operations.specs.Ready.{IsReady};

use crate::react::deed_turn;
use ce_algorithms::{Deed, Given};
use ce_base::{NoMemory, NodeNo, Refused, Text};
use ce_operations::State;
use ce_operations::resolve::{resolve, resolve_user};
use ce_outcomes::page_calls::gives_node;
use ce_outcomes::{Came, came_from};
use ce_page::PageStop;
use frame_stack::{Stack, Waiting};
use rule_lines::{Cmd, Op};
use std::alloc::Global;

/// A command begins: one unit of fuel, and what it performs.
pub(crate) fn begin(
    state: &mut State,
    alloc: Global,
    stack: &mut Stack,
    line: u64,
    c: Cmd,
) -> Result<Came, NoMemory>
    requires paired { ArePaired stack.old state.old }
    ensures turn { IfOk result (λ now. Turns (frames_of stack.old) (frames_of stack.new) now (session stack.new state.new)
        (command_turn line c (session stack.old state.old))) }
    ensures paired { OnOk result (ArePaired stack.new state.new) }
    ensures placed { OnOk result (StaysPlaced state.old.page.forest (command_turn line c (session stack.old state.old))) }
{
    match state.spend() {
        Ok(()) => match stack.push(Waiting::Replying(line)) {
            Ok(()) => {
                let now = perform(state, alloc, stack, c)?;
                Ok(now)
            }
            Err(NoMemory) => {
                drop(c);
                Err(NoMemory)
            }
        },
        Err(PageStop::Refused(f)) => {
            drop(c);
            Ok(Came::Threw(f))
        }
        Err(PageStop::FuelSpent) => {
            drop(c);
            Ok(Came::Over)
        }
        Err(PageStop::NoMemory) => {
            drop(c);
            Err(NoMemory)
        }
    }
}

// Performs a command.
#[tactic(auto, unfolding(ce_frames::specs::Loop::perform_turn))]
fn perform(state: &mut State, alloc: Global, stack: &mut Stack, c: Cmd) -> Result<Came, NoMemory>
    requires paired { ArePaired stack.old state.old }
    requires room { state.old.page.queues.pushed + state.old.fuel + 1 < 2 ^ 64 }
    ensures turn { IfOk result
        (λ now. Turns (frames_of stack.old) (frames_of stack.new) now (session stack.new state.new) (perform_turn c (session stack.old state.old))) }
    ensures paired { OnOk result (ArePaired stack.new state.new) }
    ensures placed { OnOk result (StaysPlaced state.old.page.forest (perform_turn c (session stack.old state.old))) }
{
    match c {
        Cmd::Both(op) => operate(state, alloc, stack, &None, op),
        Cmd::Doc { var } => make_document(state, alloc, stack, var),
        c => act_as_user(state, alloc, stack, c),
    }
}

// Does what the user does.
#[tactic(auto, unfolding(ce_frames::specs::OperateTurns::user_turn))]
fn act_as_user(
    state: &mut State,
    alloc: Global,
    stack: &mut Stack,
    c: Cmd,
) -> Result<Came, NoMemory>
    requires user { IsByUser c }
    requires paired { ArePaired stack.old state.old }
    requires room { state.old.page.queues.pushed + state.old.fuel + 1 < 2 ^ 64 }
    ensures turn { IfOk result
        (λ now. Turns (frames_of stack.old) (frames_of stack.new) now (session stack.new state.new) (user_turn c (session stack.old state.old))) }
    ensures paired { OnOk result (ArePaired stack.new state.new) }
    ensures placed { OnOk result (StaysPlaced state.old.page.forest (user_turn c (session stack.old state.old))) }
{
    let resolved = resolve_user(state, c);
    do_resolved(state, alloc, stack, resolved, None)
}

// Makes an inert document, for which a variable waits.
fn make_document(
    state: &mut State,
    alloc: Global,
    stack: &mut Stack,
    var: Text,
) -> Result<Came, NoMemory>
    ensures turn { IfOk result (λ now. Turns (frames_of stack.old) (frames_of stack.new) now state.new
        (named_turn (Some var) (hand_down (on_page (gives_node make_document))) state.old)) }
    ensures same { OnOk result (behaviours_of stack.new ≡ behaviours_of stack.old) }
    ensures blind { OnOk result (BlindAt (named_turn (Some var) (hand_down (on_page (gives_node make_document)))) state.old) }
    ensures placed { OnOk result (StaysPlaced state.old.page.forest (named_turn (Some var) (hand_down (on_page (gives_node make_document))) state.old)) }
{
    name(stack, Some(var))?;
    let made = document(state, alloc);
    let now = came_from(made)?;
    Ok(now)
}

fn document(state: &mut State, alloc: Global) -> Result<Given, PageStop>
    ensures step { Ends (λ g. g) result state.new (on_page (gives_node make_document) state.old) }
    ensures grows { size state.old.page.forest ≤ size state.new.page.forest }
    ensures there { IfOk result (IsThere state.new.page.forest) }
{
    gives_node(state.make_document(alloc))
}

/// Performs an operation, where `this` is this node or none.
#[tactic(auto, unfolding(ce_frames::specs::OperateTurns::operate_turn))]
pub(crate) fn operate(
    state: &mut State,
    alloc: Global,
    stack: &mut Stack,
    this: &Option<NodeNo>,
    op: Op,
) -> Result<Came, NoMemory>
    requires there { IfSome this.now (IsNode state.old.page.forest) }
    requires paired { ArePaired stack.old state.old }
    requires room { state.old.page.queues.pushed + state.old.fuel + 1 < 2 ^ 64 }
    ensures turn { IfOk result (λ now. Turns (frames_of stack.old) (frames_of stack.new) now (session stack.new state.new)
        (operate_turn this.now op (session stack.old state.old))) }
    ensures paired { OnOk result (ArePaired stack.new state.new) }
    ensures placed { OnOk result (StaysPlaced state.old.page.forest (operate_turn this.now op (session stack.old state.old))) }
{
    match variable(alloc, &op) {
        Err(NoMemory) => {
            drop(op);
            Err(NoMemory)
        }
        Ok(var) => {
            let resolved = resolve(state, alloc, this, op);
            do_resolved(state, alloc, stack, resolved, var)
        }
    }
}

// Does what was resolved; where it gives a node, its variable waits for it. Or an operand was at fault.
fn do_resolved(
    state: &mut State,
    alloc: Global,
    stack: &mut Stack,
    resolved: Result<Deed, Refused>,
    var: Option<Text>,
) -> Result<Came, NoMemory>
    requires ready { IfOk resolved (IsReady state.old.page.forest) }
    requires paired { ArePaired stack.old state.old }
    requires room { state.old.page.queues.pushed + state.old.fuel + 1 < 2 ^ 64 }
    ensures turn { (this : Option ℕ) (find : View → Result IsDeed IsFault) → Resolves resolved (find (view this (session stack.old state.old)))
        → IfOk result (λ now. Turns (frames_of stack.old) (frames_of stack.new) now (session stack.new state.new)
        (resolved_turn this find var (session stack.old state.old))) }
    ensures paired { OnOk result (ArePaired stack.new state.new) }
    ensures placed { (this : Option ℕ) (find : View → Result IsDeed IsFault) → Resolves resolved (find (view this (session stack.old state.old)))
        → OnOk result (StaysPlaced state.old.page.forest (resolved_turn this find var (session stack.old state.old))) }
{
    match resolved {
        Err(Refused::Fault(f)) => Ok(Came::Threw(f)),
        Err(Refused::NoMemory) => Err(NoMemory),
        Ok(deed) => named(state, alloc, stack, var, deed),
    }
}

// Does a deed. Where it gives a node, its variable waits for it.
fn named(
    state: &mut State,
    alloc: Global,
    stack: &mut Stack,
    var: Option<Text>,
    deed: Deed,
) -> Result<Came, NoMemory>
    requires ready { IsReady state.old.page.forest deed }
    requires paired { ArePaired stack.old state.old }
    requires room { state.old.page.queues.pushed + state.old.fuel + 1 < 2 ^ 64 }
    ensures turn { IfOk result (λ now. Turns (frames_of stack.old) (frames_of stack.new) now (session stack.new state.new)
        (named_turn var (deed_turn deed) (session stack.old state.old))) }
    ensures paired { OnOk result (ArePaired stack.new state.new) }
    ensures placed { OnOk result (StaysPlaced state.old.page.forest (named_turn var (deed_turn deed) (session stack.old state.old))) }
{
    match name(stack, var) {
        Err(NoMemory) => {
            drop(deed);
            Err(NoMemory)
        }
        Ok(()) => deed_turn(state, alloc, stack, deed),
    }
}

// The frame of a variable, where there is one.
fn name(stack: &mut Stack, var: Option<Text>) -> Result<(), NoMemory>
    ensures frames { OnOk result (frames_of stack.new ≡ frames_of stack.old ++ naming var) }
    ensures same { OnOk result (behaviours_of stack.new ≡ behaviours_of stack.old) }
{
    match var {
        None => Ok(()),
        Some(var) => {
            stack.push(Waiting::Naming(var))?;
            Ok(())
        }
    }
}

// The variable of an operation that gives a node. None for the others.
fn variable(alloc: Global, op: &Op) -> Result<Option<Text>, NoMemory>
    ensures { IfOk result (λ var. var ≡ variable op.now) }
{
    match op {
        Op::Create { var, .. } => Ok(Some(var.copy(alloc)?)),
        Op::New { var, .. } => Ok(Some(var.copy(alloc)?)),
        Op::MakeText { var, .. } => Ok(Some(var.copy(alloc)?)),
        Op::Shadow { var, .. } => Ok(Some(var.copy(alloc)?)),
        Op::Clone { var, .. } => Ok(Some(var.copy(alloc)?)),
        _ => Ok(None),
    }
}
