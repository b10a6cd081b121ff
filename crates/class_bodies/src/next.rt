// Where a body is, and where it stops.

use ce_base::Fault;
use rule_lines::Action;
use rule_tokens::{CallName, Operand};

/// How far a body is.
#[derive(Clone, Copy)]
pub struct At {
    /// Whose body it is.
    pub call: CallName,
    /// From which of its actions on it goes, the first being 0. Behind the last one the body is at its end.
    pub index: usize,
}

/// Where a body stops.
#[derive(Drop)]
pub enum Next {
    /// This action is next. Each value in it is the text that it has now.
    Do {
        /// The action, each value in it a fixed text.
        action: Action,
        /// It stands under a `try`.
        guarded: bool,
    },
    /// The body returns: this node, or what `this` is.
    Return {
        /// The node, where one is named.
        value: Option<Operand>,
        /// The action stands under a `try`.
        guarded: bool,
    },
    /// The body throws.
    Throw {
        /// What it throws.
        fault: Fault,
        /// The action stands under a `try`.
        guarded: bool,
    },
    /// A unit of fuel is to be spent, and none is left.
    FuelSpent,
}
