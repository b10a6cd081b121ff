// Forms in a body.
ghost use Rattle.std.specs.Prelude.{◌≡◌, ◌∷◌, [], MatchOption, IfOk};
ghost use Rattle.rule_tokens.specs.Gives.{GivesSeen};
ghost use Rattle.rule_lines.specs.Acts.{act_of, line_of};
ghost use Rattle.rule_lines.specs.Acts as acts;
ghost use Rattle.rule_script.specs.Place.{declared, is_barred_in_body, is_base_call, is_constructor, nested, or_place, said_in_body};

use ce_base::NoMemory;
use rule_lines::{Action, ClassPart, Line};
use rule_reader::{Leaf, Wrap};
use rule_tokens::{Bad, CallName, LineRefused, Val};
use std::alloc::Global;

// How many `try` and `if` may stand around an action.
const DEEPEST: usize = 8;

fn is_constructor(call: CallName) -> bool
    ensures { result ≡ is_constructor call }
{
    matches!(call, CallName::Constructor)
}

fn is_base_call(leaf: &Leaf) -> bool
    ensures { result ≡ is_base_call leaf.now }
{
    matches!(leaf, Leaf::Super)
}

/// Whether the form is `super` in another body than the constructor's, or stands too deep.
pub(crate) fn is_barred(outer: &Wrap, inner: &[Wrap], leaf: &Leaf) -> bool
    ensures { result ≡ is_barred_in_body outer.now inner.now leaf.now }
{
    match outer {
        Wrap::On { call, .. } => {
            is_base_call(leaf) && !is_constructor(*call) || inner.len() > DEEPEST
        }
        Wrap::Try | Wrap::If { .. } => false,
    }
}

/// The action that the form is in a body.
pub(crate) fn action_of(leaf: Leaf) -> Result<Action, LineRefused>
    ensures { GivesSeen act_of result (or_place (said_in_body leaf)) }
{
    match leaf {
        Leaf::Both(op) => Ok(Action::Both(op)),
        Leaf::Log(vals) => Ok(Action::Log(vals)),
        Leaf::Super => Ok(Action::Super),
        Leaf::Return(node) => Ok(Action::Return(node)),
        Leaf::Throw(value) => Ok(Action::Throw(value)),
        Leaf::Bump => Ok(Action::Bump),
        Leaf::Keep(value) => Ok(Action::Keep(value)),
        leaf => {
            drop(leaf);
            Err(LineRefused::Bad(Bad::Place))
        }
    }
}

fn values(alloc: Global, left: &Val, right: &Val) -> Result<(Val, Val), NoMemory>
    ensures { IfOk result (λ v. v ≡ (left.now, right.now)) }
{
    let left = left.copy(alloc)?;
    Ok((left, right.copy(alloc)?))
}

fn compared(
    alloc: Global,
    equal: bool,
    left: &Val,
    right: &Val,
    then: Box<Action>,
) -> Result<Action, LineRefused>
    ensures { GivesSeen act_of result (Ok (acts.If equal left.now right.now (act_of then.value))) }
{
    let (left, right) = values(alloc, left, right)?;
    Ok(Action::If {
        equal,
        left,
        right,
        then,
    })
}

// The action with one of `try` and `if` around it.
fn wrapped(alloc: Global, wrap: &Wrap, action: Action) -> Result<Action, LineRefused>
    ensures { GivesSeen act_of result (or_place (nested (wrap.now ∷ []) (act_of action))) }
{
    let inner = Box::new(alloc, action)?;
    match wrap {
        Wrap::Try => Ok(Action::Try(inner)),
        Wrap::If { equal, left, right } => compared(alloc, *equal, left, right, inner),
        Wrap::On { .. } => Err(LineRefused::Bad(Bad::Place)),
    }
}

// The outermost, and those inside it.
fn outermost(wraps: &[Wrap]) -> Option<(&Wrap, &[Wrap])>
    ensures { MatchOption result (wraps.now ≡ []) (λ x. wraps.now ≡ x.0.now ∷ x.1.now) }
{
    match wraps {
        [] => None,
        [first, rest @ ..] => Some((first, rest)),
    }
}

/// The action with what stands around it in its body.
#[tactic(auto, using(crate::proofs::NestingLaws::nested_one))]
pub(crate) fn nest(alloc: Global, inner: &[Wrap], action: Action) -> Result<Action, LineRefused>
    ensures { GivesSeen act_of result (or_place (nested inner.now (act_of action))) }
{
    match outermost(inner) {
        None => Ok(action),
        Some((first, rest)) => {
            let action = nest(alloc, rest, action)?;
            wrapped(alloc, first, action)
        }
    }
}

// Lets the action go, since memory is refused.
fn without_memory(action: Action) -> LineRefused
    ensures { result ≡ LineRefused.NoMemory }
{
    drop(action);
    LineRefused::NoMemory
}

// Lets the action go, since it may not stand there.
fn misplaced(action: Action) -> LineRefused
    ensures { result ≡ LineRefused.Bad Bad.Place }
{
    drop(action);
    LineRefused::Bad(Bad::Place)
}

/// The part of a class that gives the action to a body.
pub(crate) fn declared(alloc: Global, outer: &Wrap, action: Action) -> Result<Line, LineRefused>
    ensures { GivesSeen line_of result (or_place (declared outer.now (act_of action))) }
{
    match outer {
        Wrap::On { class, call } => match class.copy(alloc) {
            Ok(class) => Ok(Line::Part(ClassPart::On {
                class,
                call: *call,
                action,
            })),
            Err(_) => Err(without_memory(action)),
        },
        Wrap::Try | Wrap::If { .. } => Err(misplaced(action)),
    }
}
