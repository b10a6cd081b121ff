// The deeds of operations on attributes, with their operands from the left.
ghost use Rattle.std.specs.Prelude.{IfOk, IfSome};
ghost use Rattle.node_trees.specs.Nodes.{IsNode};
ghost use Rattle.rule_lines.specs.declared.op.Op.TheVariants as ops;
ghost use Rattle.ce_algorithms.specs.Deeds.{resolve};
ghost use Rattle.ce_algorithms.specs.State.{view};
ghost use Rattle.session_state.specs.Resolved.{Resolves};
ghost use Rattle.ce_operations.specs.Ready.{IsReady};

use crate::operands::{element, fixed_text};
use ce_algorithms::{Deed, PageDeed};
use ce_base::{NodeNo, Refused, Text};
use rule_tokens::{Operand, Val};
use session_state::State;
use std::alloc::Global;

// The deed of setting an attribute.
pub(crate) fn set_attr(
    state: &State,
    alloc: Global,
    this: &Option<NodeNo>,
    operand: &Operand,
    name: Text,
    value: Val,
) -> Result<Deed, Refused>
    requires { IfSome this.now (IsNode state.now.page.forest) }
    ensures deed { Resolves result (resolve (view this.now state.now) (ops.SetAttr operand.now name value)) }
    ensures ready { IfOk result (IsReady state.now.page.forest) }
{
    let node = element(state, this, operand)?;
    let value = fixed_text(alloc, value)?;
    Ok(Deed::OnPage(PageDeed::SetAttr { node, name, value }))
}

// The deed of removing an attribute.
pub(crate) fn del_attr(
    state: &State,
    this: &Option<NodeNo>,
    operand: &Operand,
    name: Text,
) -> Result<Deed, Refused>
    requires { IfSome this.now (IsNode state.now.page.forest) }
    ensures deed { Resolves result (resolve (view this.now state.now) (ops.DelAttr operand.now name)) }
    ensures ready { IfOk result (IsReady state.now.page.forest) }
{
    let node = element(state, this, operand)?;
    Ok(Deed::OnPage(PageDeed::DelAttr { node, name }))
}
