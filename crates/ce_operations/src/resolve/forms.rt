// The deeds of operations on forms.
ghost use Rattle.std.specs.Prelude.{◌≡◌, Ok, None, true, IfOk, IfSome};
ghost use Rattle.node_trees.specs.Nodes.{IsNode};
ghost use Rattle.ce_algorithms.specs.declared.deed.Deed.TheVariants.{OnForms, Submits};
ghost use Rattle.ce_algorithms.specs.declared.deed.FormDeed.TheVariants as form_deeds;
ghost use Rattle.ce_algorithms.specs.declared.deed.SubmitDeed.TheVariants as submit_deeds;
ghost use Rattle.ce_algorithms.specs.declared.fit.Fit.TheVariants as kinds;
ghost use Rattle.ce_algorithms.specs.Deeds.{resolve};
ghost use Rattle.ce_algorithms.specs.Operands.{◌>>=◌ as and_then, node_or_none, node_that};
ghost use Rattle.ce_algorithms.specs.State.{view};
ghost use Rattle.session_state.specs.Resolved.{Resolves};
ghost use Rattle.ce_operations.specs.OnForms.{is_on_forms};
ghost use Rattle.ce_operations.specs.Ready.{IsReady};

use crate::operands::{node_or_none, node_that};
use ce_algorithms::{Deed, Fit, FormDeed, SubmitDeed};
use ce_base::{NodeNo, Refused, Text};
use reaction_queue::Mode;
use rule_lines::Op;
use rule_tokens::Operand;
use session_state::State;

// Whether an operation resets or submits a form.
pub(crate) fn is_on_forms(op: &Op) -> bool
    ensures { result ≡ is_on_forms op.now }
{
    matches!(
        op,
        Op::Reset { .. } | Op::Submit { .. } | Op::Request { .. }
    )
}

// The deed of an operation on a form.
pub(crate) fn on_forms(state: &State, this: &Option<NodeNo>, op: Op) -> Result<Deed, Refused>
    requires forms { is_on_forms op ≡ true }
    requires there { IfSome this.now (IsNode state.now.page.forest) }
    ensures deed { Resolves result (resolve (view this.now state.now) op) }
    ensures ready { IfOk result (IsReady state.now.page.forest) }
{
    match op {
        Op::Reset { form } => reset(state, this, &form, false),
        Op::Submit { form } => submit(state, this, &form),
        Op::Request { form, submitter } => request(state, this, &form, &submitter),
        _ => unreachable!(),
    }
}

// The deed of a reset.
pub(crate) fn reset(
    state: &State,
    this: &Option<NodeNo>,
    operand: &Operand,
    by_user: bool,
) -> Result<Deed, Refused>
    requires { IfSome this.now (IsNode state.now.page.forest) }
    ensures deed { Resolves result (and_then (node_that kinds.Form (view this.now state.now) operand.now) (λ n. Ok (OnForms (form_deeds.Reset n by_user)))) }
    ensures ready { IfOk result (IsReady state.now.page.forest) }
{
    let form = node_that(Fit::Form, state, this, operand)?;
    Ok(Deed::OnForms(FormDeed::Reset { form, by_user }))
}

// The deed of a state that comes back, or is filled in.
pub(crate) fn restore(
    state: &State,
    operand: &Operand,
    text: Text,
    mode: Mode,
) -> Result<Deed, Refused>
    ensures deed { Resolves result
        (and_then (node_that kinds.CustomFormAssociated (view None state.now) operand.now) (λ n. Ok (OnForms (form_deeds.Restore n text mode)))) }
    ensures ready { IfOk result (IsReady state.now.page.forest) }
{
    let node = node_that(Fit::CustomFormAssociated, state, &None, operand)?;
    Ok(Deed::OnForms(FormDeed::Restore { node, text, mode }))
}

// The deed of a submission by a call of `submit`.
fn submit(state: &State, this: &Option<NodeNo>, operand: &Operand) -> Result<Deed, Refused>
    requires { IfSome this.now (IsNode state.now.page.forest) }
    ensures deed { Resolves result (and_then (node_that kinds.Form (view this.now state.now) operand.now) (λ n. Ok (Submits (submit_deeds.Submit n)))) }
    ensures ready { IfOk result (IsReady state.now.page.forest) }
{
    let form = node_that(Fit::Form, state, this, operand)?;
    Ok(Deed::Submits(SubmitDeed::Submit { form }))
}

// The deed of a submission that is requested.
fn request(
    state: &State,
    this: &Option<NodeNo>,
    operand: &Operand,
    submitter: &Option<Operand>,
) -> Result<Deed, Refused>
    requires { IfSome this.now (IsNode state.now.page.forest) }
    ensures deed { Resolves result (and_then (node_that kinds.Form (view this.now state.now) operand.now)
        (λ n. and_then (node_or_none (view this.now state.now) submitter.now) (λ b. Ok (Submits (submit_deeds.Request n b))))) }
    ensures ready { IfOk result (IsReady state.now.page.forest) }
{
    let form = node_that(Fit::Form, state, this, operand)?;
    let submitter = node_or_none(state, this, submitter)?;
    Ok(Deed::Submits(SubmitDeed::Request { form, submitter }))
}

// The deed of a button that is pressed.
pub(crate) fn press(state: &State, operand: &Operand) -> Result<Deed, Refused>
    ensures deed { Resolves result (and_then (node_that kinds.Button (view None state.now) operand.now) (λ n. Ok (Submits (submit_deeds.Press n)))) }
    ensures ready { IfOk result (IsReady state.now.page.forest) }
{
    let button = node_that(Fit::Button, state, &None, operand)?;
    Ok(Deed::Submits(SubmitDeed::Press { button }))
}
