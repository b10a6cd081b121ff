// The deeds of operations on internals.
ghost use Rattle.std.specs.Prelude.{◌≡◌, Ok, true, option_map, IfOk, IfSome};
ghost use Rattle.node_trees.specs.Nodes.{IsNode};
ghost use Rattle.form_controls.specs.Internals.{state_or};
ghost use Rattle.form_controls.specs.declared.value.Value.TheVariants as values;
ghost use Rattle.ce_algorithms.specs.declared.deed.Deed.TheVariants.{OnInternals};
ghost use Rattle.ce_algorithms.specs.declared.deed.InternalsDeed.TheVariants as internals_deeds;
ghost use Rattle.ce_algorithms.specs.Deeds.{resolve, text_value};
ghost use Rattle.ce_algorithms.specs.Operands.{◌>>=◌ as and_then, element};
ghost use Rattle.ce_algorithms.specs.State.{view};
ghost use Rattle.ce_algorithms.specs.Values.{fixed_text};
ghost use Rattle.session_state.specs.Resolved.{Resolves};
ghost use Rattle.ce_operations.specs.OnInternals.{is_on_internals};
ghost use Rattle.ce_operations.specs.Ready.{IsReady};

use crate::operands::{element, fixed_text};
use ce_algorithms::{Deed, InternalsDeed};
use ce_base::{Entries, Flags, NoMemory, NodeNo, Refused, Text};
use form_controls::Value;
use rule_lines::Op;
use rule_tokens::{Operand, Val};
use session_state::State;
use std::alloc::Global;

// Whether an operation attaches internals, or writes something through them.
pub(crate) fn is_on_internals(op: &Op) -> bool
    ensures { result ≡ is_on_internals op.now }
{
    match op {
        Op::Internals { .. } => true,
        Op::FormValue { .. } | Op::FormList { .. } | Op::FormNull { .. } => true,
        Op::Validity { .. } => true,
        Op::StateAdd { .. } | Op::StateDelete { .. } | Op::StateClear { .. } => true,
        _ => false,
    }
}

// The deed of an operation on internals.
pub(crate) fn on_internals(
    state: &State,
    alloc: Global,
    this: &Option<NodeNo>,
    op: Op,
) -> Result<Deed, Refused>
    requires internals { is_on_internals op ≡ true }
    requires there { IfSome this.now (IsNode state.now.page.forest) }
    ensures deed { Resolves result (resolve (view this.now state.now) op) }
    ensures ready { IfOk result (IsReady state.now.page.forest) }
{
    match op {
        Op::Internals { node: operand } => {
            let node = element(state, this, &operand)?;
            Ok(Deed::OnInternals(InternalsDeed::Attach { node }))
        }
        Op::FormValue { node, value, saved } => text(state, alloc, this, &node, value, saved),
        Op::FormList { node, entries } => list(state, alloc, this, &node, entries),
        Op::FormNull { node } => written(state, this, &node, Value::Nothing, Value::Nothing),
        Op::Validity {
            node,
            flags,
            message,
        } => validity(state, alloc, this, &node, flags, message),
        Op::StateAdd {
            node: operand,
            word,
        } => {
            let node = element(state, this, &operand)?;
            Ok(Deed::OnInternals(InternalsDeed::AddState { node, word }))
        }
        Op::StateDelete {
            node: operand,
            word,
        } => {
            let node = element(state, this, &operand)?;
            Ok(Deed::OnInternals(InternalsDeed::DeleteState { node, word }))
        }
        Op::StateClear { node: operand } => {
            let node = element(state, this, &operand)?;
            Ok(Deed::OnInternals(InternalsDeed::ClearStates { node }))
        }
        _ => unreachable!(),
    }
}

// The deed of a value that is one text.
fn text(
    state: &State,
    alloc: Global,
    this: &Option<NodeNo>,
    operand: &Operand,
    value: Val,
    saved: Option<Val>,
) -> Result<Deed, Refused>
    requires { IfSome this.now (IsNode state.now.page.forest) }
    ensures deed { Resolves result (and_then (element (view this.now state.now) operand.now)
        (λ n. Ok (OnInternals (internals_deeds.SetValue n (text_value value) (state_or (text_value value) (option_map text_value saved)))))) }
    ensures ready { IfOk result (IsReady state.now.page.forest) }
{
    let value = fixed_text(alloc, value)?;
    let saved = text_or(alloc, &value, saved)?;
    written(state, this, operand, Value::One(value), Value::One(saved))
}

// A state that is left out is the value.
fn text_or(alloc: Global, value: &Text, saved: Option<Val>) -> Result<Text, NoMemory>
    ensures { IfOk result (λ t. values.One t ≡ state_or (values.One value.now) (option_map text_value saved)) }
{
    match saved {
        None => value.copy(alloc),
        Some(saved) => fixed_text(alloc, saved),
    }
}

// The deed of a value that is a list of entries.
fn list(
    state: &State,
    alloc: Global,
    this: &Option<NodeNo>,
    operand: &Operand,
    entries: Entries,
) -> Result<Deed, Refused>
    requires { IfSome this.now (IsNode state.now.page.forest) }
    ensures deed { Resolves result (and_then (element (view this.now state.now) operand.now)
        (λ n. Ok (OnInternals (internals_deeds.SetValue n (values.Many entries) (values.Many entries))))) }
    ensures ready { IfOk result (IsReady state.now.page.forest) }
{
    let saved = entries.copy(alloc)?;
    written(
        state,
        this,
        operand,
        Value::Many(entries),
        Value::Many(saved),
    )
}

// The deed of validity flags.
fn validity(
    state: &State,
    alloc: Global,
    this: &Option<NodeNo>,
    operand: &Operand,
    flags: Flags,
    message: Val,
) -> Result<Deed, Refused>
    requires { IfSome this.now (IsNode state.now.page.forest) }
    ensures deed { Resolves result (and_then (element (view this.now state.now) operand.now)
        (λ n. Ok (OnInternals (internals_deeds.SetValidity n flags (fixed_text message))))) }
    ensures ready { IfOk result (IsReady state.now.page.forest) }
{
    let message = fixed_text(alloc, message)?;
    let node = element(state, this, operand)?;
    Ok(Deed::OnInternals(InternalsDeed::SetValidity {
        node,
        flags,
        message,
    }))
}

// The deed of a value and a state.
fn written(
    state: &State,
    this: &Option<NodeNo>,
    operand: &Operand,
    value: Value,
    saved: Value,
) -> Result<Deed, Refused>
    requires { IfSome this.now (IsNode state.now.page.forest) }
    ensures deed { Resolves result (and_then (element (view this.now state.now) operand.now) (λ n. Ok (OnInternals (internals_deeds.SetValue n value saved)))) }
    ensures ready { IfOk result (IsReady state.now.page.forest) }
{
    let node = element(state, this, operand)?;
    Ok(Deed::OnInternals(InternalsDeed::SetValue { node, value, saved }))
}
