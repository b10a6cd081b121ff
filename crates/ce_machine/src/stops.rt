// Where a body stops, and what it does there.
ghost use Rattle.std.specs.Prelude.{◌≡◌, ◌+◌, ◌<◌, ◌^◌, false, map, true, IfNone, IfOk, IfSome, OnOk};
ghost use Rattle.node_trees.specs.Nodes.{IsNode};
ghost use Rattle.rule_lines.specs.Acts.{Both, Super, act_of};
ghost use Rattle.behaviours.specs.Resume.{Doing, OutOfFuel, Returning, Throwing};
ghost use Rattle.ce_events.specs.declared.event.Event.TheVariants.{Logged};
ghost use Rattle.ce_algorithms.specs.State.{logged};
ghost use Rattle.ce_algorithms.specs.Values.{fixed_text};
ghost use Rattle.frame_stack.specs.Resumes.{IsForSession};
ghost use Rattle.frame_stack.specs.Sessions.{ArePaired, session};
ghost use Rattle.frame_stack.specs.Stacked.{HasBody, below_top, frames_of, this_of, top_of};
ghost use Rattle.ce_machine.specs.Bodies.{GoesOn, acting_turn, answer, based_turn, frame_on_top, running_turn, stopped_turn};
ghost use Rattle.ce_outcomes.specs.Given.{IsThere};
ghost use Rattle.ce_outcomes.specs.Placed.{Lasts};
ghost use Rattle.ce_outcomes.specs.Turns.{Turns};

use crate::operate::operate;
use behaviours::Next;
use ce_algorithms::Given;
use ce_base::{Fault, NoMemory, NodeNo};
use ce_events::Event;
use ce_operations::State;
use ce_operations::operands::{fixed_texts, node};
use ce_outcomes::Came;
use ce_page::PageStop;
use frame_stack::Stack;
use rule_lines::{Action, Op, Vals};
use rule_tokens::Operand;
use std::alloc::Global;

/// The body on top runs up to its next stop. None where it goes on behind it.
pub(crate) fn go_on(
    state: &mut State,
    alloc: Global,
    stack: &mut Stack,
) -> Result<Option<Came>, NoMemory>
    requires body { HasBody (frames_of stack.old) }
    requires paired { ArePaired stack.old state.old }
    requires there { IfSome (this_of (top_of (frames_of stack.old))) (IsNode state.old.page.forest) }
    ensures turn { IfOk result (λ o. IfSome o (λ now. Turns (below_top (frames_of stack.old)) (frames_of stack.new) now (session stack.new state.new)
        (running_turn (frame_on_top stack.old) (session stack.old state.old)))) }
    ensures paired { OnOk result (ArePaired stack.new state.new) }
    ensures lasts { IfOk result (λ o. IfSome o (λ now. Lasts state.old.page.forest (running_turn (frame_on_top stack.old) (session stack.old state.old)))) }
    ensures on { IfOk result (λ o. IfNone o (GoesOn stack.old stack.new state.old state.new (running_turn))) }
    ensures spent { IfOk result (λ o. IfNone o (state.new.fuel < state.old.fuel)) }
{
    match state.resume(alloc, stack)? {
        Next::FuelSpent => {
            let now = spent(state, stack)?;
            Ok(Some(now))
        }
        Next::Throw { fault, guarded } => {
            let o = thrown(state, stack, fault, guarded)?;
            Ok(o)
        }
        Next::Return { value, guarded } => {
            let o = returned(state, stack, &value, guarded)?;
            Ok(o)
        }
        Next::Do { action, guarded: _ } => {
            let o = act(state, alloc, stack, action)?;
            Ok(o)
        }
    }
}

// No unit of fuel is left: the session has ended.
fn spent(state: &mut State, stack: &mut Stack) -> Result<Came, NoMemory>
    requires body { HasBody (frames_of stack.old) }
    requires paired { ArePaired stack.old state.old }
    ensures turn { IfOk result (λ now. Turns (below_top (frames_of stack.old)) (frames_of stack.new) now (session stack.new state.new)
        (stopped_turn OutOfFuel (frame_on_top stack.old) (session stack.old state.old))) }
    ensures paired { OnOk result (ArePaired stack.new state.new) }
    ensures lasts { OnOk result (Lasts state.old.page.forest (stopped_turn OutOfFuel (frame_on_top stack.old) (session stack.old state.old))) }
{
    state.log(Event::FuelLine)?;
    stack.end();
    Ok(Came::Over)
}

// An action has thrown.
fn thrown(
    state: &mut State,
    stack: &mut Stack,
    fault: Fault,
    guarded: bool,
) -> Result<Option<Came>, NoMemory>
    requires body { HasBody (frames_of stack.old) }
    requires paired { ArePaired stack.old state.old }
    ensures turn { IfOk result (λ o. IfSome o (λ now. Turns (below_top (frames_of stack.old)) (frames_of stack.new) now (session stack.new state.new)
        (stopped_turn (Throwing fault guarded) (frame_on_top stack.old) (session stack.old state.old)))) }
    ensures paired { OnOk result (ArePaired stack.new state.new) }
    ensures lasts { IfOk result (λ o. IfSome o
        (λ now. Lasts state.old.page.forest (stopped_turn (Throwing fault guarded) (frame_on_top stack.old) (session stack.old state.old)))) }
    ensures on { IfOk result (λ o. IfNone o (GoesOn stack.old stack.new state.old state.new (stopped_turn (Throwing fault guarded)))) }
    ensures guarded { IfOk result (λ o. IfNone o (guarded ≡ true)) }
{
    if guarded {
        state.log(Event::Caught(fault))?;
        return Ok(None);
    }
    stack.end();
    Ok(Some(Came::Threw(fault)))
}

// The body returns.
fn returned(
    state: &mut State,
    stack: &mut Stack,
    value: &Option<Operand>,
    guarded: bool,
) -> Result<Option<Came>, NoMemory>
    requires body { HasBody (frames_of stack.old) }
    requires paired { ArePaired stack.old state.old }
    requires there { IfSome (this_of (top_of (frames_of stack.old))) (IsNode state.old.page.forest) }
    ensures turn { IfOk result (λ o. IfSome o (λ now. Turns (below_top (frames_of stack.old)) (frames_of stack.new) now (session stack.new state.new)
        (stopped_turn (Returning value.now guarded) (frame_on_top stack.old) (session stack.old state.old)))) }
    ensures paired { OnOk result (ArePaired stack.new state.new) }
    ensures lasts { IfOk result (λ o. IfSome o
        (λ now. Lasts state.old.page.forest (stopped_turn (Returning value.now guarded) (frame_on_top stack.old) (session stack.old state.old)))) }
    ensures on { IfOk result (λ o. IfNone o (GoesOn stack.old stack.new state.old state.new (stopped_turn (Returning value.now guarded)))) }
    ensures guarded { IfOk result (λ o. IfNone o (guarded ≡ true)) }
{
    let this = stack.this();
    match answer(state, &this, value) {
        Ok(given) => {
            stack.end();
            Ok(Some(Came::Went(given)))
        }
        Err(f) => {
            let o = thrown(state, stack, f, guarded)?;
            Ok(o)
        }
    }
}

// What a body returns: the node that is named, or what `this` is.
fn answer(state: &State, this: &Option<NodeNo>, value: &Option<Operand>) -> Result<Given, Fault>
    requires { IfSome this.now (IsNode state.now.page.forest) }
    ensures answer { result ≡ answer this.now state.now value.now }
    ensures there { IfOk result (IsThere state.now.page.forest) }
{
    match value {
        None => match this {
            None => Ok(Given::Nothing),
            Some(n) => Ok(Given::Node(*n)),
        },
        Some(operand) => {
            let n = node(state, this, operand)?;
            Ok(Given::Node(n))
        }
    }
}

// The body does an action whose texts are fixed.
fn act(
    state: &mut State,
    alloc: Global,
    stack: &mut Stack,
    action: Action,
) -> Result<Option<Came>, NoMemory>
    requires action { IsForSession (Doing (act_of action) false) }
    requires room { state.old.page.queues.pushed + state.old.fuel + 1 < 2 ^ 64 }
    requires body { HasBody (frames_of stack.old) }
    requires paired { ArePaired stack.old state.old }
    requires there { IfSome (this_of (top_of (frames_of stack.old))) (IsNode state.old.page.forest) }
    ensures turn { IfOk result (λ o. IfSome o (λ now. Turns (below_top (frames_of stack.old)) (frames_of stack.new) now (session stack.new state.new)
        (acting_turn (act_of action) (frame_on_top stack.old) (session stack.old state.old)))) }
    ensures paired { OnOk result (ArePaired stack.new state.new) }
    ensures lasts { IfOk result
        (λ o. IfSome o (λ now. Lasts state.old.page.forest (acting_turn (act_of action) (frame_on_top stack.old) (session stack.old state.old)))) }
    ensures on { IfOk result (λ o. IfNone o (GoesOn stack.old stack.new state.old state.new (acting_turn (act_of action)))) }
{
    match action {
        Action::Both(op) => {
            let now = operation(state, alloc, stack, op)?;
            Ok(Some(now))
        }
        Action::Log(vals) => {
            log_fixed(state, alloc, vals)?;
            Ok(None)
        }
        Action::Super => call_base(state, alloc, stack),
        _ => unreachable!(),
    }
}

// The base call gives a node, or throws.
fn call_base(state: &mut State, alloc: Global, stack: &mut Stack) -> Result<Option<Came>, NoMemory>
    requires body { HasBody (frames_of stack.old) }
    requires paired { ArePaired stack.old state.old }
    ensures turn { IfOk result (λ o. IfSome o (λ now. Turns (below_top (frames_of stack.old)) (frames_of stack.new) now (session stack.new state.new)
        (acting_turn Super (frame_on_top stack.old) (session stack.old state.old)))) }
    ensures paired { OnOk result (ArePaired stack.new state.new) }
    ensures lasts { IfOk result
        (λ o. IfSome o (λ now. Lasts state.old.page.forest (acting_turn Super (frame_on_top stack.old) (session stack.old state.old)))) }
    ensures on { IfOk result (λ o. IfNone o (GoesOn stack.old stack.new state.old state.new (acting_turn Super))) }
{
    match stack.owner() {
        None => unreachable!(),
        Some(class) => match state.base_call(alloc, class) {
            Ok(n) => {
                let o = take_this(state, stack, n)?;
                Ok(o)
            }
            Err(PageStop::Refused(f)) => {
                let guarded = stack.is_guarded();
                let o = thrown(state, stack, f, guarded)?;
                Ok(o)
            }
            Err(PageStop::FuelSpent) => {
                stack.end();
                Ok(Some(Came::Over))
            }
            Err(PageStop::NoMemory) => Err(NoMemory),
        },
    }
}

// The base call has given a node, which is `this` from now on. Where `this` was set before, it throws.
fn take_this(state: &mut State, stack: &mut Stack, n: NodeNo) -> Result<Option<Came>, NoMemory>
    requires body { HasBody (frames_of stack.old) }
    requires paired { ArePaired stack.old state.old }
    requires node { IsNode state.old.page.forest n }
    ensures turn { IfOk result (λ o. IfSome o (λ now. Turns (below_top (frames_of stack.old)) (frames_of stack.new) now (session stack.new state.new)
        (based_turn n (frame_on_top stack.old) (session stack.old state.old)))) }
    ensures paired { OnOk result (ArePaired stack.new state.new) }
    ensures lasts { IfOk result (λ o. IfSome o (λ now. Lasts state.old.page.forest (based_turn n (frame_on_top stack.old) (session stack.old state.old)))) }
    ensures on { IfOk result (λ o. IfNone o (GoesOn stack.old stack.new state.old state.new (based_turn n))) }
{
    if stack.this().is_some() {
        let guarded = stack.is_guarded();
        let o = thrown(state, stack, Fault::ReferenceError, guarded)?;
        return Ok(o);
    }
    stack.set_this(n);
    Ok(None)
}

// An operation runs above the body.
fn operation(state: &mut State, alloc: Global, stack: &mut Stack, op: Op) -> Result<Came, NoMemory>
    requires room { state.old.page.queues.pushed + state.old.fuel + 1 < 2 ^ 64 }
    requires body { HasBody (frames_of stack.old) }
    requires paired { ArePaired stack.old state.old }
    requires there { IfSome (this_of (top_of (frames_of stack.old))) (IsNode state.old.page.forest) }
    ensures turn { IfOk result (λ now. Turns (below_top (frames_of stack.old)) (frames_of stack.new) now (session stack.new state.new)
        (acting_turn (Both op) (frame_on_top stack.old) (session stack.old state.old))) }
    ensures paired { OnOk result (ArePaired stack.new state.new) }
    ensures lasts { OnOk result (Lasts state.old.page.forest (acting_turn (Both op) (frame_on_top stack.old) (session stack.old state.old))) }
{
    let this = stack.this();
    operate(state, alloc, stack, &this, op)
}

// Logs texts that were fixed.
fn log_fixed(state: &mut State, alloc: Global, vals: Vals) -> Result<(), NoMemory>
    ensures logged { OnOk result (state.new ≡ logged (Logged (map fixed_text vals)) state.old) }
{
    let texts = fixed_texts(alloc, vals)?;
    state.log(Event::Logged(texts))?;
    Ok(())
}
