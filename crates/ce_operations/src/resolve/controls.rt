// The deeds of operations on controls.
ghost use Rattle.std.specs.Prelude.{◌≡◌, Ok, None, true, IfOk, IfSome};
ghost use Rattle.node_trees.specs.Nodes.{IsNode};
ghost use Rattle.ce_algorithms.specs.declared.deed.ControlDeed.TheVariants as control_deeds;
ghost use Rattle.ce_algorithms.specs.declared.deed.Deed.TheVariants.{OnControls};
ghost use Rattle.ce_algorithms.specs.declared.fit.Fit.TheVariants as kinds;
ghost use Rattle.ce_algorithms.specs.Deeds.{resolve};
ghost use Rattle.ce_algorithms.specs.Operands.{◌>>=◌ as and_then, node_that};
ghost use Rattle.ce_algorithms.specs.State.{view};
ghost use Rattle.ce_algorithms.specs.Values.{fixed_text};
ghost use Rattle.session_state.specs.Resolved.{Resolves};
ghost use Rattle.ce_operations.specs.OnControls.{is_on_controls};
ghost use Rattle.ce_operations.specs.Ready.{IsReady};

use crate::operands::{fixed_text, node_that};
use ce_algorithms::{ControlDeed, Deed, Fit};
use ce_base::{NodeNo, Refused, Text};
use rule_lines::Op;
use rule_tokens::{Operand, Val};
use session_state::State;
use std::alloc::Global;

// Whether an operation sets a value, a checkedness, a choice or a custom message.
pub(crate) fn is_on_controls(op: &Op) -> bool
    ensures { result ≡ is_on_controls op.now }
{
    matches!(
        op,
        Op::Value { .. } | Op::Check { .. } | Op::Choose { .. } | Op::Custom { .. }
    )
}

// The deed of an operation on a control.
pub(crate) fn on_controls(
    state: &State,
    alloc: Global,
    this: &Option<NodeNo>,
    op: Op,
) -> Result<Deed, Refused>
    requires controls { is_on_controls op ≡ true }
    requires there { IfSome this.now (IsNode state.now.page.forest) }
    ensures deed { Resolves result (resolve (view this.now state.now) op) }
    ensures ready { IfOk result (IsReady state.now.page.forest) }
{
    match op {
        Op::Value { node, value } => {
            let text = fixed_text(alloc, value)?;
            edit(state, this, &node, text, false)
        }
        Op::Check { node, on } => tick(state, this, &node, on, false),
        Op::Choose { node, on } => choose(state, this, &node, on, false),
        Op::Custom { node, message } => custom(state, alloc, this, &node, message),
        _ => unreachable!(),
    }
}

// The deed of a value.
pub(crate) fn edit(
    state: &State,
    this: &Option<NodeNo>,
    operand: &Operand,
    text: Text,
    by_user: bool,
) -> Result<Deed, Refused>
    requires { IfSome this.now (IsNode state.now.page.forest) }
    ensures deed { Resolves result
        (and_then (node_that kinds.TextControl (view this.now state.now) operand.now) (λ n. Ok (OnControls (control_deeds.Edit n text by_user)))) }
    ensures ready { IfOk result (IsReady state.now.page.forest) }
{
    let node = node_that(Fit::TextControl, state, this, operand)?;
    Ok(Deed::OnControls(ControlDeed::Edit {
        node,
        text,
        by_user,
    }))
}

// The deed of a checkedness.
pub(crate) fn tick(
    state: &State,
    this: &Option<NodeNo>,
    operand: &Operand,
    on: bool,
    by_user: bool,
) -> Result<Deed, Refused>
    requires { IfSome this.now (IsNode state.now.page.forest) }
    ensures deed { Resolves result
        (and_then (node_that kinds.Tickable (view this.now state.now) operand.now) (λ n. Ok (OnControls (control_deeds.Tick n on by_user)))) }
    ensures ready { IfOk result (IsReady state.now.page.forest) }
{
    let node = node_that(Fit::Tickable, state, this, operand)?;
    Ok(Deed::OnControls(ControlDeed::Tick { node, on, by_user }))
}

// The deed of a choice.
pub(crate) fn choose(
    state: &State,
    this: &Option<NodeNo>,
    operand: &Operand,
    on: bool,
    by_user: bool,
) -> Result<Deed, Refused>
    requires { IfSome this.now (IsNode state.now.page.forest) }
    ensures deed { Resolves result
        (and_then (node_that kinds.AnOption (view this.now state.now) operand.now) (λ n. Ok (OnControls (control_deeds.Choose n on by_user)))) }
    ensures ready { IfOk result (IsReady state.now.page.forest) }
{
    let node = node_that(Fit::AnOption, state, this, operand)?;
    Ok(Deed::OnControls(ControlDeed::Choose { node, on, by_user }))
}

// The deed of a custom message.
fn custom(
    state: &State,
    alloc: Global,
    this: &Option<NodeNo>,
    operand: &Operand,
    message: Val,
) -> Result<Deed, Refused>
    requires { IfSome this.now (IsNode state.now.page.forest) }
    ensures deed { Resolves result (and_then (node_that kinds.ListedNative (view this.now state.now) operand.now)
        (λ n. Ok (OnControls (control_deeds.SetMessage n (fixed_text message))))) }
    ensures ready { IfOk result (IsReady state.now.page.forest) }
{
    let message = fixed_text(alloc, message)?;
    let node = node_that(Fit::ListedNative, state, this, operand)?;
    Ok(Deed::OnControls(ControlDeed::SetMessage { node, message }))
}
