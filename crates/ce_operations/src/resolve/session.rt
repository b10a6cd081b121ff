// The deeds of operations on the session itself, with their operands from the left.
ghost use Rattle.std.specs.Prelude.{◌≡◌, IfOk, IfSome, true};
ghost use Rattle.node_trees.specs.Nodes.{IsNode};
ghost use Rattle.rule_lines.specs.declared.op.Op.TheVariants as ops;
ghost use Rattle.ce_algorithms.specs.Deeds.{resolve};
ghost use Rattle.ce_algorithms.specs.Operands.{◌>>=◌ as and_then, class};
ghost use Rattle.ce_algorithms.specs.State.{view};
ghost use Rattle.session_state.specs.Resolved.{Resolves};
ghost use Rattle.ce_operations.specs.Ready.{IsReady};

use crate::operands::{class, node, node_that};
use ce_algorithms::Deed;
use ce_base::{NodeNo, Refused, Text};
use rule_lines::AskWord;
use rule_tokens::Operand;
use session_state::State;
use session_state::page_calls::asked_of;

// The deed of a definition.
pub(crate) fn define(
    state: &State,
    name: Text,
    class_name: &Text,
    base: Option<Text>,
) -> Result<Deed, Refused>
    ensures deed { Resolves result (and_then (class state.now.classes class_name.now) (λ k. Ok (Deed.Define name k base))) }
    ensures ready { IfOk result (IsReady state.now.page.forest) }
{
    let class = class(state, class_name.as_str())?;
    Ok(Deed::Define { name, class, base })
}

// The deed of a question.
pub(crate) fn ask(
    state: &State,
    this: &Option<NodeNo>,
    word: AskWord,
    operand: &Operand,
    name: Option<Text>,
) -> Result<Deed, Refused>
    requires { IfSome this.now (IsNode state.now.page.forest) }
    ensures deed { Resolves result (resolve (view this.now state.now) (ops.Ask word operand.now name)) }
    ensures ready { IfOk result (IsReady state.now.page.forest) }
{
    let node = node_that(asked_of(word), state, this, operand)?;
    Ok(Deed::Ask { word, node, name })
}

// The deed of setting a variable.
pub(crate) fn let_node(
    state: &State,
    this: &Option<NodeNo>,
    var: Text,
    operand: &Operand,
) -> Result<Deed, Refused>
    requires { IfSome this.now (IsNode state.now.page.forest) }
    ensures deed { Resolves result (resolve (view this.now state.now) (ops.Let var operand.now)) }
    ensures ready { IfOk result (IsReady state.now.page.forest) }
{
    let node = node(state, this, operand)?;
    Ok(Deed::Let { var, node })
}
