// Actions of a body.
ghost use Rattle.std.specs.Prelude.{◌≡◌, IfOk};
ghost use Rattle.rule_lines.specs.Acts.{act_of};
ghost use Rattle.rule_lines.specs.Acts as acts;

use crate::op_copy::maybe_node;
use crate::{Op, Vals};
use ce_base::NoMemory;
use rule_tokens::{Operand, Val};
use std::alloc::Global;

/// An action of a body. A contract sees it as an act, which has no boxes.
#[derive(Drop)]
pub enum Action {
    /// An operation.
    Both(Op),
    /// `log value ..`: writes the values.
    Log(Vals),
    /// `super`: the base call of a constructor.
    Super,
    /// `return [node]`: ends the body.
    Return(Option<Operand>),
    /// `throw value`: throws.
    Throw(Val),
    /// `bump`: adds 1 to the class's counter.
    Bump,
    /// `keep value`: sets the class's kept text.
    Keep(Val),
    /// `try action`: a fault of the action is caught.
    Try(Box<Action>),
    /// `if eq left right : action` and `if ne left right : action`: the action, where the texts are equal,
    /// or differ.
    If {
        equal: bool,
        left: Val,
        right: Val,
        then: Box<Action>,
    },
}

fn two_values(alloc: Global, left: &Val, right: &Val) -> Result<(Val, Val), NoMemory>
    ensures left { IfOk result (λ x. x.0 ≡ left.now) }
    ensures right { IfOk result (λ x. x.1 ≡ right.now) }
{
    Ok((left.copy(alloc)?, right.copy(alloc)?))
}

fn boxed(alloc: Global, action: Action) -> Result<Box<Action>, NoMemory>
    ensures { IfOk result (λ x. x.value ≡ action) }
{
    Ok(Box::new(alloc, action)?)
}

fn compared(
    alloc: Global,
    equal: bool,
    left: &Val,
    right: &Val,
    then: Action,
) -> Result<Action, NoMemory>
    ensures { IfOk result (λ x. act_of x ≡ acts.If equal left.now right.now (act_of then)) }
{
    let then = boxed(alloc, then)?;
    let (left, right) = two_values(alloc, left, right)?;
    Ok(Action::If {
        equal,
        left,
        right,
        then,
    })
}

impl Action {
    /// A second action that does the same. `NoMemory` comes only where memory was refused.
    pub fn copy(&self, alloc: Global) -> Result<Action, NoMemory>
        ensures { IfOk result (λ x. act_of x ≡ act_of self.now) }
    {
        match self {
            Action::Both(op) => Ok(Action::Both(op.copy(alloc)?)),
            Action::Log(vals) => Ok(Action::Log(vals.copy(alloc)?)),
            Action::Super => Ok(Action::Super),
            Action::Return(node) => Ok(Action::Return(maybe_node(alloc, node)?)),
            Action::Throw(value) => Ok(Action::Throw(value.copy(alloc)?)),
            Action::Bump => Ok(Action::Bump),
            Action::Keep(value) => Ok(Action::Keep(value.copy(alloc)?)),
            Action::Try(inner) => Ok(Action::Try(boxed(alloc, inner.copy(alloc)?)?)),
            Action::If {
                equal,
                left,
                right,
                then,
            } => compared(alloc, *equal, left, right, then.copy(alloc)?),
        }
    }

    /// Lets the action go. Who calls this has no drop of a whole action to prove.
    pub fn close(self) {
        drop(self);
    }
}
