// The deeds of operations on the tree, with their operands from the left.
ghost use Rattle.std.specs.Prelude.{◌≡◌, true, IfOk, IfSome};
ghost use Rattle.node_trees.specs.Nodes.{IsNode};
ghost use Rattle.rule_lines.specs.declared.op.Op.TheVariants as ops;
ghost use Rattle.ce_algorithms.specs.Deeds.{resolve};
ghost use Rattle.ce_algorithms.specs.Operands.{◌>>=◌ as and_then, document_or_page};
ghost use Rattle.ce_algorithms.specs.State.{view};
ghost use Rattle.session_state.specs.Resolved.{Resolves};
ghost use Rattle.ce_operations.specs.OnTree.{is_on_tree};
ghost use Rattle.ce_operations.specs.Ready.{IsReady};

use super::attributes::{del_attr, set_attr};
use crate::operands::{document_or_page, element, node, node_that};
use ce_algorithms::{Deed, Fit, PageDeed};
use ce_base::{NodeNo, Refused, Text};
use rule_lines::Op;
use rule_tokens::Operand;
use session_state::State;
use std::alloc::Global;

// Whether an operation changes where nodes stand, or an attribute.
pub(crate) fn is_on_tree(op: &Op) -> bool
    ensures { result ≡ is_on_tree op.now }
{
    match op {
        Op::Shadow { .. } | Op::Append { .. } | Op::Before { .. } => true,
        Op::Remove { .. } | Op::Detach { .. } | Op::Adopt { .. } => true,
        Op::SetAttr { .. } | Op::DelAttr { .. } => true,
        _ => false,
    }
}

// The deed of an operation on the tree.
pub(crate) fn on_tree(
    state: &State,
    alloc: Global,
    this: &Option<NodeNo>,
    op: Op,
) -> Result<Deed, Refused>
    requires tree { is_on_tree op ≡ true }
    requires there { IfSome this.now (IsNode state.now.page.forest) }
    ensures deed { Resolves result (resolve (view this.now state.now) op) }
    ensures ready { IfOk result (IsReady state.now.page.forest) }
{
    match op {
        Op::Shadow { var: _, host } => {
            let host = element(state, this, &host)?;
            Ok(Deed::OnPage(PageDeed::Shadow { host }))
        }
        Op::Append {
            parent,
            node: child,
        } => append(state, this, &parent, &child),
        Op::Before {
            parent,
            node: child,
            before: reference,
        } => before(state, this, &parent, &child, &reference),
        Op::Remove {
            parent,
            node: child,
        } => remove(state, this, &parent, &child),
        Op::Detach { node } => {
            let node = node_that(Fit::ElementOrText, state, this, &node)?;
            Ok(Deed::OnPage(PageDeed::Detach { node }))
        }
        Op::SetAttr { node, name, value } => set_attr(state, alloc, this, &node, name, value),
        Op::DelAttr { node, name } => del_attr(state, this, &node, name),
        Op::Adopt {
            document,
            node: operand,
        } => adopt(state, this, &document, &operand),
        _ => unreachable!(),
    }
}

// The deed of a creation.
pub(crate) fn create(
    state: &State,
    this: &Option<NodeNo>,
    local: Text,
    is_value: Option<Text>,
    document: &Option<Operand>,
) -> Result<Deed, Refused>
    requires { IfSome this.now (IsNode state.now.page.forest) }
    ensures deed { Resolves result (and_then (document_or_page (view this.now state.now) document.now) (λ d. Ok (Deed.Create local is_value d))) }
    ensures ready { IfOk result (IsReady state.now.page.forest) }
{
    let document = document_or_page(state, this, document)?;
    Ok(Deed::Create {
        local,
        is_value,
        document,
    })
}

// The deed of making a text node.
pub(crate) fn make_text(
    state: &State,
    this: &Option<NodeNo>,
    chars: Text,
    document: &Option<Operand>,
) -> Result<Deed, Refused>
    requires { IfSome this.now (IsNode state.now.page.forest) }
    ensures deed { Resolves result (and_then (document_or_page (view this.now state.now) document.now) (λ d. Ok (Deed.OnPage (PageDeed.MakeText chars d)))) }
    ensures ready { IfOk result (IsReady state.now.page.forest) }
{
    let document = document_or_page(state, this, document)?;
    Ok(Deed::OnPage(PageDeed::MakeText { chars, document }))
}

// The deed of an insertion behind the last child.
fn append(
    state: &State,
    this: &Option<NodeNo>,
    parent: &Operand,
    child: &Operand,
) -> Result<Deed, Refused>
    requires { IfSome this.now (IsNode state.now.page.forest) }
    ensures deed { Resolves result (resolve (view this.now state.now) (ops.Append parent.now child.now)) }
    ensures ready { IfOk result (IsReady state.now.page.forest) }
{
    let parent = node(state, this, parent)?;
    let child = node(state, this, child)?;
    Ok(Deed::OnPage(PageDeed::Insert {
        parent,
        node: child,
        before: None,
    }))
}

// The deed of an insertion before a child.
fn before(
    state: &State,
    this: &Option<NodeNo>,
    parent: &Operand,
    child: &Operand,
    reference: &Operand,
) -> Result<Deed, Refused>
    requires { IfSome this.now (IsNode state.now.page.forest) }
    ensures deed { Resolves result (resolve (view this.now state.now) (ops.Before parent.now child.now reference.now)) }
    ensures ready { IfOk result (IsReady state.now.page.forest) }
{
    let parent = node(state, this, parent)?;
    let child = node(state, this, child)?;
    let reference = node(state, this, reference)?;
    Ok(Deed::OnPage(PageDeed::Insert {
        parent,
        node: child,
        before: Some(reference),
    }))
}

// The deed of a removal from a parent.
fn remove(
    state: &State,
    this: &Option<NodeNo>,
    parent: &Operand,
    child: &Operand,
) -> Result<Deed, Refused>
    requires { IfSome this.now (IsNode state.now.page.forest) }
    ensures deed { Resolves result (resolve (view this.now state.now) (ops.Remove parent.now child.now)) }
    ensures ready { IfOk result (IsReady state.now.page.forest) }
{
    let parent = node(state, this, parent)?;
    let child = node(state, this, child)?;
    Ok(Deed::OnPage(PageDeed::Remove {
        parent,
        node: child,
    }))
}

// The deed of an adoption.
fn adopt(
    state: &State,
    this: &Option<NodeNo>,
    document: &Operand,
    operand: &Operand,
) -> Result<Deed, Refused>
    requires { IfSome this.now (IsNode state.now.page.forest) }
    ensures deed { Resolves result (resolve (view this.now state.now) (ops.Adopt document.now operand.now)) }
    ensures ready { IfOk result (IsReady state.now.page.forest) }
{
    let document = node_that(Fit::Document, state, this, document)?;
    let node = node(state, this, operand)?;
    Ok(Deed::OnPage(PageDeed::Adopt { document, node }))
}
