// Actions of a body, up to one that needs more than what the class remembers and the fuel.
ghost use Rattle.std.specs.Prelude.{◌≡◌, ◌≤◌, drop, map, option_map, IfOk, Some};
ghost use Rattle.ce_base.specs.declared.fault.Fault.TheVariants.{UserThrow};
ghost use Rattle.rule_lines.specs.Acts.{Both, Log, act_of};
ghost use Rattle.ce_algorithms.specs.Body.{actions_of, holds};
ghost use Rattle.ce_algorithms.specs.Values.{fixed, fixed_value, text_of};
ghost use Rattle.class_bodies.specs.Next.{acted_to, resumed_to, stop_of};
ghost use Rattle.class_bodies.specs.Resume.{Doing, Returning, Throwing, acted, resumed};

use crate::bodies::Bodies;
use crate::fixing::{fixed, fixed_values};
use crate::{Args, At, Memory, Next};
use ce_base::{Fault, Fuel, NoMemory};
use rule_lines::{Action, Op, Vals};
use rule_tokens::{Operand, Val};
use std::alloc::Global;

/// Runs a body from a place on. Before each action one unit of fuel is spent, and one more for the action in a `try` or an
/// `if`. It runs `bump`, `keep`, `if` and `try` itself, and stops at the next other action, or at the end of the body.
pub fn resume_in(
    bodies: &Bodies,
    memory: &mut Memory,
    alloc: Global,
    at: &mut At,
    args: &Args,
    fuel: &mut Fuel,
) -> Result<Next, NoMemory>
    ensures resumed { IfOk result (λ next. resumed_to next memory.new fuel.new (drop at.new.index (actions_of at.new.call bodies.now))
        ≡ resumed args.now (drop at.old.index (actions_of at.old.call bodies.now)) memory.old fuel.old) }
    ensures call { at.new.call ≡ at.old.call }
    ensures less { fuel.new ≤ fuel.old }
{
    while let Some(action) = bodies.get(at.call, at.index) {
        if !fuel.spend() {
            return Ok(Next::FuelSpent);
        }
        at.index += 1;
        if let Some(next) = act(alloc, action, false, memory, args, fuel)? {
            return Ok(next);
        }
    }
    Ok(Next::Return {
        value: None,
        guarded: false,
    })
}

// Runs an action whose fuel is spent. None where the body goes on.
fn act(
    alloc: Global,
    action: &Action,
    guarded: bool,
    memory: &mut Memory,
    args: &Args,
    fuel: &mut Fuel,
) -> Result<Option<Next>, NoMemory>
    ensures acted { IfOk result (λ next. acted_to next memory.new fuel.new ≡ acted args.now guarded (act_of action.now) memory.old fuel.old) }
    ensures less { fuel.new ≤ fuel.old }
{
    match action {
        Action::Bump => {
            memory.bump();
            Ok(None)
        }
        Action::Keep(v) => {
            let text = args.text(alloc, memory, v)?;
            memory.keep(text);
            Ok(None)
        }
        Action::Try(inner) => {
            if !fuel.spend() {
                return Ok(Some(Next::FuelSpent));
            }
            act(alloc, inner, true, memory, args, fuel)
        }
        Action::If {
            equal,
            left,
            right,
            then,
        } => {
            if !holds(alloc, *equal, left, right, memory, args)? {
                return Ok(None);
            }
            if !fuel.spend() {
                return Ok(Some(Next::FuelSpent));
            }
            act(alloc, then, guarded, memory, args, fuel)
        }
        Action::Return(operand) => returned(alloc, operand, guarded),
        Action::Throw(v) => thrown(alloc, v, guarded, memory, args),
        Action::Both(op) => operation(alloc, op, guarded, memory, args),
        Action::Log(vals) => logged(alloc, vals, guarded, memory, args),
        Action::Super => Ok(Some(Next::Do {
            action: Action::Super,
            guarded,
        })),
    }
}

// Whether the texts that two values name are equal, or differ.
fn holds(
    alloc: Global,
    equal: bool,
    left: &Val,
    right: &Val,
    memory: &Memory,
    args: &Args,
) -> Result<bool, NoMemory>
    ensures { IfOk result (λ b. b ≡ holds equal (text_of memory.now args.now left.now) (text_of memory.now args.now right.now)) }
{
    let left = args.text(alloc, memory, left)?;
    let right = args.text(alloc, memory, right)?;
    Ok((left.as_str() == right.as_str()) == equal)
}

// `return`: the body stops.
fn returned(
    alloc: Global,
    operand: &Option<Operand>,
    guarded: bool,
) -> Result<Option<Next>, NoMemory>
    ensures { IfOk result (λ next. option_map stop_of next ≡ Some (Returning operand.now guarded)) }
{
    match operand {
        None => Ok(Some(Next::Return {
            value: None,
            guarded,
        })),
        Some(operand) => Ok(Some(Next::Return {
            value: Some(operand.copy(alloc)?),
            guarded,
        })),
    }
}

// `throw`: the body stops.
fn thrown(
    alloc: Global,
    v: &Val,
    guarded: bool,
    memory: &Memory,
    args: &Args,
) -> Result<Option<Next>, NoMemory>
    ensures { IfOk result (λ next. option_map stop_of next ≡ Some (Throwing (UserThrow (text_of memory.now args.now v.now)) guarded)) }
{
    Ok(Some(Next::Throw {
        fault: Fault::UserThrow(args.text(alloc, memory, v)?),
        guarded,
    }))
}

// The body stops at an operation.
fn operation(
    alloc: Global,
    op: &Op,
    guarded: bool,
    memory: &Memory,
    args: &Args,
) -> Result<Option<Next>, NoMemory>
    ensures { IfOk result (λ next. option_map stop_of next ≡ Some (Doing (Both (fixed memory.now args.now op.now)) guarded)) }
{
    Ok(Some(Next::Do {
        action: Action::Both(fixed(alloc, op, memory, args)?),
        guarded,
    }))
}

// The body stops at a `log`.
fn logged(
    alloc: Global,
    vals: &Vals,
    guarded: bool,
    memory: &Memory,
    args: &Args,
) -> Result<Option<Next>, NoMemory>
    ensures { IfOk result (λ next. option_map stop_of next ≡ Some (Doing (Log (map (fixed_value memory.now args.now) vals.now)) guarded)) }
{
    Ok(Some(Next::Do {
        action: Action::Log(fixed_values(alloc, vals, memory, args)?),
        guarded,
    }))
}
